ghost use Rattle.std.specs.Prelude.{◌≡◌, ◌≤◌, ◌+◌, ◌*◌, ◌++◌, ℕ, List, length};
ghost use Rattle.std.specs.List.{All};
ghost use Rattle.event_text.specs.Line.{line_text, stripped};
ghost use Rattle.stage_event.specs.declared.event.Event.{Event};
ghost use Rattle.line_bounds.specs.Bounds as spec;

/// How many bytes a text has in a line: at most six for each of its own, and at most two where it has no control characters.
pub fn texts_are_bounded()
    ensures any { (text : List ℕ) → spec.text_size text ≤ 6 * length text }
    ensures printed { (text : List ℕ) → All (λ b. 32 ≤ b) text → spec.text_size text ≤ 2 * length text }
    ensures joined { (text more : List ℕ) → spec.text_size (text ++ more) ≡ spec.text_size text + spec.text_size more }
{}

/// The line of an event without its objects has no more bytes than `line_bound` says.
pub fn lines_are_bounded()
    ensures { (event : Event) → spec.HasRanges event
        → length (line_text (stripped event)) ≤ spec.line_bound event }
{}
