// Words that `clap` takes, and that are no option and no value here.
ghost use Rattle.std.specs.Prelude.{◌≡◌, map, option_map, string_bytes};
ghost use Rattle.std.specs.List.{list_any};
ghost use Rattle.command_options.specs.Parser as parser;
ghost use Rattle.command_options.specs.Spelling as spec;

use front_base::cut_at;

// The text after two dashes.
pub fn behind_dashes(word: &str) -> Option<&str>
    ensures { option_map (λ text. text.now) result ≡ spec.behind_dashes word.now }
{
    word.strip_prefix("--")
}

fn has_empty_value(word: &str) -> bool
    ensures { result ≡ parser.has_empty_value word.now }
{
    match behind_dashes(word) {
        Some(text) => match cut_at(text, '=') {
            Some((_, value)) => value.is_empty(),
            None => false,
        },
        None => false,
    }
}

#[tactic(auto, unfolding(crate::specs::Parser::is_doubtful))]
fn is_doubtful(word: &str) -> bool
    ensures { result ≡ parser.is_doubtful word.now }
{
    word.is_empty() || word == "-" || word == "--" || has_empty_value(word)
}

/// Some word is empty, one dash, two, or an option with an empty value. `clap` would take it.
pub fn has_doubtful(words: &[String]) -> bool
    ensures { result ≡ list_any parser.is_doubtful (map string_bytes words.now) }
{
    for word in words {
        if is_doubtful(word.as_str()) {
            return true;
        }
    }
    false
}
