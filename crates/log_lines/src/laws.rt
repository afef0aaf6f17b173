ghost use Rattle.std.specs.Prelude.{◌≡◌, ℕ, List};
ghost use Rattle.log_lines.specs.Lines.{HasNoFeed, ReadsLines};

/// Bytes have one list of lines, and one rest that has no line feed.
pub fn one_list_of_lines()
    ensures { (bytes : List ℕ) (lines others : List (List ℕ)) (rest other : List ℕ) → HasNoFeed rest → HasNoFeed other
        → ReadsLines bytes lines rest → ReadsLines bytes others other → (lines ≡ others) × (rest ≡ other) }
{}
