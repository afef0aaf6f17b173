// What the rows of a text are to a table, and what one user knows of a table's changes.
ghost use Rattle.std.specs.Prelude.{◌≡◌, ◌≤◌, ◌++◌, ◌∷◌, ℕ, List, [], None, Some, Ok, length};
ghost use Rattle.apiservice_rows.specs.Row.{Row};
ghost use Rattle.apiservice_rows.specs.RowList.{read_rows};
ghost use Rattle.apiservice_rows.specs.declared.row_list.TheConstants.{MOST_ROWS};
ghost use Rattle.apiservice_table.specs.Changes.{after, changed, patched_in, placed, refusal, rows_of, IsLater, Story, Took};
ghost use Rattle.apiservice_table.specs.Services.{object_named};
ghost use Rattle.apiservice_table.specs.Table.{HasDistinctNames};
ghost use Rattle.apiservice_table.specs.declared.change.Change.{Change};
ghost use Rattle.apiservice_table.specs.declared.change.Change.TheVariants as asked;

use service_patches::a_patch_keeps_the_name;

/// The rows of every text that is accepted fit a table, whether it is one object or a list.
pub fn read_rows_fit()
    ensures { (bytes : List ℕ) (rows : List Row) → read_rows bytes ≡ Ok rows
        → (length rows ≤ MOST_ROWS) × HasDistinctNames rows }
{}

/// The rows after changes are those before the last one, with that.
pub fn the_last_change_counts()
    ensures { (rows : List Row) (changes : List Change) (change : Change)
        → after rows (changes ++ change ∷ []) ≡ changed (after rows changes) change }
{}

/// A patch that makes a row is taken, and leaves the object of that row under the name that it was sent for.
pub fn a_patch_leaves_its_object()
    ensures taken { (name patch : List ℕ) (rows : List Row) (new : Row) → patched_in name patch rows ≡ Some new
        → refusal rows (asked.Patch name patch) ≡ None }
    ensures left { (name patch : List ℕ) (rows : List Row) (new : Row) → patched_in name patch rows ≡ Some new
        → object_named name (changed rows (asked.Patch name patch)) ≡ Some new.object }
{
    a_patch_keeps_the_name();
}

/// Of a table that one user alone changes, as of `TableRoutes`: where no own change is added the rows are as they were,
/// and where one is added they are those before it with that change.
pub fn one_user_knows_the_rows()
    ensures same { (old new : Story) → IsLater old.seen new.seen → new.opening ≡ old.opening
        → placed 0 new.seen ≡ placed 0 old.seen → rows_of new ≡ rows_of old }
    ensures more { (old new : Story) (change : Change) → new.opening ≡ old.opening
        → Took old.opening old.seen (placed 0 old.seen) change new.seen (placed 0 new.seen)
        → (refusal (rows_of old) change ≡ None) × (rows_of new ≡ changed (rows_of old) change) }
{}
