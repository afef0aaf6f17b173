ghost use Rattle.std.specs.Prelude.{◌≡◌, ℕ, List, ◌++◌, length};
ghost use Rattle.json_span.specs.Span.{place_reach, start, EndsMember};
ghost use Rattle.json_span.specs.Value.{Value, StandsFor, IsText, flat};
ghost use Rattle.json_span.specs.Fault.{FaultAt};

/// A text stands for one value at most, so the text that `compact` gives is determined.
pub fn one_value()
    ensures { (text : List ℕ) (v w : Value) → StandsFor text v → StandsFor text w → v ≡ w }
{}

/// Bytes that are no text go wrong at one place.
pub fn one_fault()
    ensures { (text : List ℕ) (a b : ℕ) → FaultAt IsText text a → FaultAt IsText text b → a ≡ b }
{}

/// The compact text of a value stands for that value.
pub fn compact_keeps_the_value()
    ensures { (text : List ℕ) (v : Value) → StandsFor text v → StandsFor (flat v) v }
{}

/// What `value_len` answers on a compact value is its length, whatever comes after the comma or the brace behind it.
pub fn one_length()
    ensures { (v : Value) (rest : List ℕ) → StandsFor (flat v) v → EndsMember rest
        → place_reach start (flat v ++ rest) ≡ length (flat v) }
{}
