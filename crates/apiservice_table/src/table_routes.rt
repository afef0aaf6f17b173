ghost use Rattle.std.specs.Prelude.{◌≡◌, ◌∷◌, ◌++◌, [], None, IfOk, IfErr, OnOk, OnErr};
ghost use Rattle.apiservice_table.specs.Changes.{changed, changed_table, left_by, refusal, IsDue};
ghost use Rattle.apiservice_table.specs.Table as spec;

use crate::change::{Change, ChangeFault};
use crate::routes::Routes;
use crate::services::service_list;
use crate::table::RouteTable;
use apiservice_rows::{Row, Rows};
use front_base::{Bytes, NoMemory};
use std::alloc::Global;
use std::marker::Model;

/// Routes on one thread: all changes that are seen are its own. Contracts see the rows before any change, and the
/// changes.
#[derive(Debug, Drop)]
pub struct TableRoutes {
    opening: Vec<Row>,
    seen: Vec<Change>,
    table: RouteTable,
}

impl Model for TableRoutes {
    ghost use Rattle.std.specs.Prelude.{◌≡◌};
    ghost use Rattle.apiservice_table.specs.Changes as story;

    ghost Value = { story.Story };

    ghost view = { λ t. record { opening = t.opening.items; seen = t.seen.items } };

    ghost invariant = { λ t. t.table.rows ≡ story.after t.opening.items t.seen.items };
}

fn copy_rows(alloc: Global, rows: &[Row]) -> Result<Vec<Row>, NoMemory>
    ensures { IfOk result (λ copies. copies.items ≡ rows.now) }
{
    let mut copies = Vec::new(alloc);
    for row in rows {
        copies.push(row.copy(alloc)?)?;
    }
    Ok(copies)
}

// Keeps a copy of a change after the others.
fn note(alloc: Global, seen: &mut Vec<Change>, change: &Change) -> Result<(), NoMemory>
    ensures noted { OnOk result (seen.new.items ≡ seen.old.items ++ change.now ∷ []) }
    ensures same { OnErr result (seen.new.items ≡ seen.old.items) }
{
    Ok(seen.push(change.copy(alloc)?)?)
}

// Makes a change of a table, and keeps a copy of it after the others. What it left is copied before.
fn keep_change(
    alloc: Global,
    table: &mut RouteTable,
    seen: &mut Vec<Change>,
    change: Change,
) -> Result<Option<Bytes>, ChangeFault>
    ensures left { IfOk result (λ left. left ≡ left_by change (changed table.old.rows change)) }
    ensures done { OnOk result (table.new ≡ changed_table table.old change) }
    ensures noted { OnOk result (seen.new.items ≡ seen.old.items ++ change ∷ []) }
    ensures due { OnOk result (refusal table.old.rows change ≡ None) }
    ensures refused { IfErr result (λ e. IsDue e (refusal table.old.rows change)) }
    ensures kept { OnErr result (table.new ≡ table.old) }
    ensures same { OnErr result (seen.new.items ≡ seen.old.items) }
{
    let len = seen.len();
    let left = match table.try_change(alloc, &change) {
        Ok(left) => left,
        Err(fault) => {
            drop(change);
            return Err(fault);
        }
    };
    if note(alloc, seen, &change).is_err() {
        drop(change);
        return Err(ChangeFault::NoMemory);
    }
    match table.apply(alloc, change) {
        Ok(()) => Ok(left),
        Err(fault) => {
            seen.truncate(len);
            Err(fault)
        }
    }
}

impl TableRoutes {
    /// Routes over a table, whose rows are the opening ones.
    pub fn new(alloc: Global, table: RouteTable) -> Result<TableRoutes, NoMemory>
        ensures opening { IfOk result (λ routes. routes.opening ≡ table.rows) }
        ensures seen { IfOk result (λ routes. routes.seen ≡ []) }
    {
        let Ok(opening) = copy_rows(alloc, table.rows()) else {
            drop(table);
            return Err(NoMemory);
        };
        Ok(TableRoutes {
            opening,
            seen: Vec::new(alloc),
            table,
        })
    }
}

impl Routes for TableRoutes {
    ghost use Rattle.apiservice_table.specs.Changes.{placed};

    ghost opening = { λ t. t.opening };

    ghost seen = { λ t. t.seen };

    ghost own = { λ t. placed 0 t.seen };

    fn find(&mut self, alloc: Global, group: &str, version: &str) -> Result<Option<Row>, NoMemory> {
        match self.table.find(group, version) {
            Some(row) => Ok(Some(row.copy(alloc)?)),
            None => Ok(None),
        }
    }

    fn list(&mut self, alloc: Global) -> Result<Rows, NoMemory> {
        Ok(Rows::new(copy_rows(alloc, self.table.rows())?))
    }

    fn has(&mut self, group: &str, version: &str) -> bool {
        self.table.find(group, version).is_some()
    }

    fn object(&mut self, alloc: Global, name: &str) -> Result<Option<Bytes>, NoMemory> {
        match self.table.named(name) {
            Some(row) => Ok(Some(row.object.copy(alloc)?)),
            None => Ok(None),
        }
    }

    fn named(&mut self, alloc: Global, name: &str) -> Result<Option<Row>, NoMemory> {
        match self.table.named(name) {
            Some(row) => Ok(Some(row.copy(alloc)?)),
            None => Ok(None),
        }
    }

    fn service_list(&mut self, alloc: Global) -> Result<Bytes, NoMemory> {
        service_list(alloc, self.table.rows())
    }

    fn group_list(&mut self, alloc: Global) -> Result<Bytes, NoMemory> {
        Ok(Bytes::new(self.table.group_list().to_vec(alloc)?))
    }

    fn group(&mut self, alloc: Global, name: &str) -> Result<Option<Bytes>, NoMemory> {
        match self.table.group(name) {
            Some(text) => Ok(Some(Bytes::new(text.to_vec(alloc)?))),
            None => Ok(None),
        }
    }

    fn change(&mut self, alloc: Global, change: Change) -> Result<Option<Bytes>, ChangeFault> {
        let left = keep_change(alloc, &mut self.table, &mut self.seen, change)?;
        Ok(left)
    }

    fn seen_count(&self) -> u64 {
        self.seen.len() as u64
    }
}
