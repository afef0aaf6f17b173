ghost use Rattle.std.specs.Prelude.{◌≡◌, ◌≤◌, ℕ, List, [], length, None, IfOk, IfErr, OnOk, OnErr, option_map};
ghost use Rattle.apiservice_rows.specs.declared.row_list.TheConstants.{MOST_ROWS};
ghost use Rattle.apiservice_table.specs.Changes.{changed, changed_table, left_by, refusal, IsDue, IsPlain};
ghost use Rattle.apiservice_table.specs.Order.{IsInOrder};
ghost use Rattle.apiservice_table.specs.Table as spec;
ghost use Rattle.apiservice_table.specs.declared.change.Change.TheVariants as asked;
ghost use Rattle.discovery_merge.specs.Documents.{group_list_text, group_text};
ghost use Rattle.discovery_merge.specs.Kept.{AreOf};

use crate::change::{Change, ChangeFault};
use crate::index::Index;
use crate::patching::{patched, try_change};
use crate::rows::{
    change_rows, find_by_name, lent, lent_after, put, refusal_of, row_named, tells_names,
};
use apiservice_rows::{Row, Rows};
use discovery_merge::Documents;
use front_base::{Bytes, NoMemory, Text};
use std::alloc::Global;
use std::marker::Model;

/// The rows by which requests find their way, at most `MOST_ROWS`, each name once. Contracts see the list of rows in byte
/// order of names, and how many changes it has taken.
#[derive(Debug, Drop)]
pub struct RouteTable {
    // In order of names.
    rows: Vec<Row>,
    // Of these rows, by group and version.
    index: Index,
    // Of these rows.
    documents: Documents,
    count: u64,
}

impl Model for RouteTable {
    ghost use Rattle.std.specs.Prelude.{◌≤◌, length};
    ghost use Rattle.apiservice_rows.specs.declared.row_list.TheConstants.{MOST_ROWS};
    ghost use Rattle.apiservice_table.specs.Index.{LinksAll};
    ghost use Rattle.apiservice_table.specs.Order.{IsInOrder, AllNamed};
    ghost use Rattle.apiservice_table.specs.Table as seen;
    ghost use Rattle.discovery_merge.specs.Kept.{AreOf};

    ghost Value = { seen.Table };

    ghost view = { λ t. record { rows = t.rows.items; changes = t.count } };

    ghost invariant = { λ t.
        IsInOrder t.rows.items × AllNamed t.rows.items × (length t.rows.items ≤ MOST_ROWS)
        × LinksAll t.rows.items t.index × AreOf t.rows.items t.documents };
}

// The documents of rows.
fn documents_of(alloc: Global, rows: &[Row]) -> Result<Documents, NoMemory>
    ensures { IfOk result (λ documents. AreOf rows.now documents) }
{
    let lent = lent(alloc, rows)?;
    let documents = Documents::new(alloc, lent.as_slice())?;
    Ok(documents)
}

// The documents of the rows as a change that is no patch would make them.
fn documents_after(alloc: Global, rows: &[Row], change: &Change) -> Result<Documents, NoMemory>
    requires order { IsInOrder rows.now }
    requires plain { IsPlain change.now }
    ensures { IfOk result (λ documents. AreOf (changed rows.now change.now) documents) }
{
    let lent = lent_after(alloc, rows, change)?;
    let documents = Documents::new(alloc, lent.as_slice())?;
    Ok(documents)
}

impl RouteTable {
    /// A table of these rows, in byte order of names. No change has been taken yet.
    pub fn from_rows(alloc: Global, rows: Rows) -> Result<RouteTable, NoMemory>
        requires few { length rows ≤ MOST_ROWS }
        requires distinct { spec.HasDistinctNames rows }
        ensures rows { IfOk result (λ table. table.rows ≡ spec.with_rows rows []) }
        ensures same { IfOk result (λ table.
            (name : List ℕ) → spec.row_named name table.rows ≡ spec.row_named name rows) }
        ensures fresh { IfOk result (λ table. table.changes ≡ 0) }
    {
        let mut ordered = Vec::new(alloc);
        for row in rows.into_vec() {
            row.tells_its_name();
            put(&mut ordered, row)?;
        }
        let index = Index::new(alloc, ordered.as_slice())?;
        let documents = documents_of(alloc, ordered.as_slice())?;
        Ok(RouteTable {
            rows: ordered,
            index,
            documents,
            count: 0,
        })
    }

    /// The row of that group and version.
    pub fn find(&self, group: &str, version: &str) -> Option<&Row>
        ensures { option_map (λ row. row.now) result ≡ spec.row group.now version.now self.now.rows }
    {
        let rows = self.rows.as_slice();
        match self.index.find(rows, group, version) {
            Some(found) => found,
            None => find_by_name(rows, group, version),
        }
    }

    /// The row of that name.
    pub fn named(&self, name: &str) -> Option<&Row>
        ensures { option_map (λ row. row.now) result ≡ spec.row_named name.now self.now.rows }
    {
        row_named(self.rows.as_slice(), name)
    }

    /// The rows in byte order of names, each name once, and no more than a table may hold.
    pub fn rows(&self) -> &[Row]
        ensures rows { result.now ≡ self.now.rows }
        ensures few { length self.now.rows ≤ MOST_ROWS }
        ensures distinct { spec.HasDistinctNames self.now.rows }
        ensures order { IsInOrder self.now.rows }
    {
        self.rows.as_slice()
    }

    /// The `APIGroupList` of `/apis`, as it was made when the last change was.
    pub fn group_list(&self) -> &[u8]
        ensures { result.now ≡ group_list_text self.now.rows }
    {
        self.documents.list()
    }

    /// The `APIGroup` of `/apis/{group}`, where a row has the group. It takes no memory.
    pub fn group(&self, name: &str) -> Option<&[u8]>
        ensures { option_map (λ text. text.now) result ≡ group_text name.now self.now.rows }
    {
        self.documents.group(name)
    }

    /// How many changes were taken since the table was made. The count stands at its type's end.
    pub fn count(&self) -> u64
        ensures { result ≡ self.now.changes }
    {
        self.count
    }

    /// The object that a change would leave where it is a patch, or why the table doesn't take it. It makes none.
    pub fn try_change(&self, alloc: Global, change: &Change) -> Result<Option<Bytes>, ChangeFault>
        ensures left { IfOk result (λ left. left ≡ left_by change.now (changed self.now.rows change.now)) }
        ensures due { OnOk result (refusal self.now.rows change.now ≡ None) }
        ensures refused { IfErr result (λ e. IsDue e (refusal self.now.rows change.now)) }
    {
        try_change(alloc, self.rows.as_slice(), change)
    }

    // Makes a change that is no patch.
    fn apply_plain(&mut self, alloc: Global, change: Change) -> Result<(), ChangeFault>
        requires { IsPlain change }
        ensures done { OnOk result (self.new ≡ changed_table self.old change) }
        ensures due { OnOk result (refusal self.old.rows change ≡ None) }
        ensures refused { IfErr result (λ e. IsDue e (refusal self.old.rows change)) }
        ensures kept { OnErr result (self.new ≡ self.old) }
    {
        tells_names(&change);
        if let Some(fault) = refusal_of(self.rows.as_slice(), &change) {
            drop(change);
            return Err(fault);
        }
        // The documents come first, so that nothing has changed where memory runs out.
        let documents = documents_after(alloc, self.rows.as_slice(), &change)?;
        let moved = change.moves_rows();
        change_rows(&mut self.rows, change)?;
        self.index.renew(self.rows.as_slice(), moved);
        self.documents = documents;
        self.count = self.count.saturating_add(1);
        Ok(())
    }

    // Puts the row that a patch makes into the place of the one of that name.
    #[tactic(auto, using(crate::proofs::PatchLemmas::taken_so, crate::proofs::PatchLemmas::table_so, crate::proofs::PatchLemmas::due_so))]
    fn apply_patch(&mut self, alloc: Global, name: &Text, patch: &Bytes) -> Result<(), ChangeFault>
        ensures done { OnOk result (self.new ≡ changed_table self.old (asked.Patch name.now patch.now)) }
        ensures due { OnOk result (refusal self.old.rows (asked.Patch name.now patch.now) ≡ None) }
        ensures refused { IfErr result (λ e. IsDue e (refusal self.old.rows (asked.Patch name.now patch.now))) }
        ensures kept { OnErr result (self.new ≡ self.old) }
    {
        let row = patched(alloc, self.rows.as_slice(), name, patch)?;
        match self.apply_plain(alloc, Change::Replace(row)) {
            Ok(()) => Ok(()),
            Err(fault) => Err(fault),
        }
    }

    /// Makes a change, or refuses it and stays as it was. `Exists` is the answer to a row whose name is there already, and
    /// comes before `Full`; `Missing` is the answer to a name that isn't there, and comes before `Invalid`, which answers a patch
    /// that makes no row of that name. A change makes all documents anew.
    pub fn apply(&mut self, alloc: Global, change: Change) -> Result<(), ChangeFault>
        ensures done { OnOk result (self.new ≡ changed_table self.old change) }
        ensures due { OnOk result (refusal self.old.rows change ≡ None) }
        ensures refused { IfErr result (λ e. IsDue e (refusal self.old.rows change)) }
        ensures kept { OnErr result (self.new ≡ self.old) }
    {
        match change {
            Change::Create(row) => self.apply_plain(alloc, Change::Create(row)),
            Change::Replace(row) => self.apply_plain(alloc, Change::Replace(row)),
            Change::Delete(name) => self.apply_plain(alloc, Change::Delete(name)),
            Change::Patch { name, patch } => self.apply_patch(alloc, &name, &patch),
        }
    }
}
