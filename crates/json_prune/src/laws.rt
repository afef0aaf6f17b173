ghost use Rattle.std.specs.Prelude.{◌≡◌, ◌≤◌, ℕ, List, Bool, true, false, length, if◌then◌else◌};
ghost use Rattle.json_span.specs.Value.{Value, StandsFor, flat, depth};
ghost use Rattle.json_prune.specs.Kept.{Keeps, kept};
ghost use Rattle.json_prune.specs.Mend.{mended};
ghost use Rattle.json_prune.specs.Prune.{Path, prune, managed, is_table, own_fields, fields_of_items, fields_of_rows, with_member};

use json_span::one_value;

/// A body has one text that an event records.
pub fn one_kept()
    ensures { (omit : Bool) (body these those : List ℕ) → Keeps omit these body → Keeps omit those body → these ≡ those }
{
    one_value();
}

/// What is kept of a text is one JSON text again, no deeper and no longer than the tokens of the text joined.
pub fn kept_is_json()
    ensures stands { (omit : Bool) (text : List ℕ) (v : Value) → StandsFor text v → StandsFor (flat (kept omit v)) (kept omit v) }
    ensures shallower { (omit : Bool) (v : Value) → depth (kept omit v) ≤ depth v }
    ensures shorter { (omit : Bool) (v : Value) → length (flat (kept omit v)) ≤ length (flat v) }
{}

/// The same of the members at a path.
pub fn pruned_is_json()
    ensures { (path : Path) (text : List ℕ) (v : Value) → StandsFor text v → StandsFor (flat (prune path v)) (prune path v) }
{}

/// What is left out once is left out, in whichever order.
pub fn left_out_once()
    ensures path { (path : Path) (v : Value) → prune path (prune path v) ≡ prune path v }
    ensures order { (these those : Path) (v : Value) → prune these (prune those v) ≡ prune those (prune these v) }
    ensures managed { (v : Value) → managed (managed v) ≡ managed v }
{}

/// Managed fields leave no trace: a member `managedFields` of any value, at any place in the metadata of an object, of
/// each item of a list or of the object in each row of a Table, changes nothing of what is left. What is no Table keeps
/// what stands in its rows.
pub fn managed_fields_hide()
    ensures own { (k : ℕ) (x v : Value) → managed (with_member own_fields k x v) ≡ managed v }
    ensures items { (k : ℕ) (x v : Value) → managed (with_member fields_of_items k x v) ≡ managed v }
    ensures rows { (k : ℕ) (x v : Value) → is_table v ≡ true → managed (with_member fields_of_rows k x v) ≡ managed v }
    ensures others { (v : Value) → is_table v ≡ false → managed v ≡ prune fields_of_items (prune own_fields v) }
    ensures path { (path : Path) (k : ℕ) (x v : Value) → prune path (with_member path k x v) ≡ prune path v }
{}

/// No half of a surrogate pair is left in what was mended, whether before or after managed fields were left out.
pub fn mended_once()
    ensures once { (text : List ℕ) (v : Value) → StandsFor text v → mended (mended v) ≡ mended v }
    ensures order { (v : Value) → managed (mended v) ≡ mended (managed v) }
{}
