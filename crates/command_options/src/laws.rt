// What the definition of options means.
ghost use Rattle.std.specs.Prelude.{◌≡◌, ◌↔◌, ◌++◌, ◌∷◌, [], ℕ, if◌then◌else◌, Err, IsOk, IsUtf8, List, Ok, false, true, codes};
ghost use Rattle.std.specs.List.{All, list_any};
ghost use Rattle.clap.specs.Words.{fault_of, first_of, matches_of};
ghost use Rattle.command_options.specs.Parser.{app_with, is_doubtful};
ghost use Rattle.command_options.specs.Spelling.{Named, begins_with_dash, has_equals_sign, is_among, options_of};
ghost use Rattle.command_options.specs.Options.{given_of, given_with, has_name, value_of};
ghost use Rattle.command_options.specs.declared.fault.WordsFault.TheVariants as words_fault;

/// An option means the same in one word and in two, where it can be spelled in both.
pub fn both_spellings()
    ensures { (names : List (List ℕ)) (name value : List ℕ) (words : List (List ℕ))
        → has_equals_sign name ≡ false → begins_with_dash value ≡ false
        → options_of names ((codes "--" ++ (name ++ 61 ∷ value)) ∷ words)
        ≡ options_of names ((codes "--" ++ name) ∷ value ∷ words) }
{}

/// A flag is one word. In front of words that spell options it is one option more, unless they have it.
pub fn the_flag_is_one_word()
    ensures { (flag : List ℕ) (names words : List (List ℕ)) (given : List Named)
        → is_among names flag ≡ true → has_equals_sign flag ≡ false → given_with flag names words ≡ Ok given
        → given_with flag names ((codes "--" ++ flag) ∷ words)
        ≡ (if has_name flag given then Err words_fault.Usage else Ok ((flag, codes "true") ∷ given)) }
{}

/// Where no word is doubtful, `clap` takes the words exactly where they are options given once each, and finds the values
/// that these options have.
pub fn clap_agrees()
    ensures taken { (names words : List (List ℕ)) → list_any is_doubtful words ≡ false → All IsUtf8 words
        → (fault_of (app_with names) words ≡ []) ↔ IsOk (given_of names words) }
    ensures found { (names words : List (List ℕ)) (given : List Named) (name : List ℕ) → list_any is_doubtful words ≡ false
        → All IsUtf8 words → given_of names words ≡ Ok given
        → first_of name (matches_of (app_with names) words) ≡ value_of name given }
{}
