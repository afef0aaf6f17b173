// The table after some of its changes.
ghost use Rattle.std.specs.Prelude.{◌≡◌, ◌≤◌, length, IfOk};
ghost use Rattle.apiservice_rows.specs.declared.row_list.TheConstants.{MOST_ROWS};
ghost use Rattle.apiservice_table.specs.Changes.{after};
ghost use Rattle.apiservice_table.specs.Order.{IsInOrder};
ghost use Rattle.apiservice_table.specs.Table.{HasDistinctNames};

use apiservice_rows::{Row, Rows};
use apiservice_table::{Change, RouteTable};
use front_base::NoMemory;
use std::alloc::Global;

/// Copies of rows, in order.
pub fn copy_rows(alloc: Global, rows: &[Row]) -> Result<Vec<Row>, NoMemory>
    ensures { IfOk result (λ copies. copies.items ≡ rows.now) }
{
    let mut copies = Vec::new(alloc);
    for row in rows {
        copies.push(row.copy(alloc)?)?;
    }
    Ok(copies)
}

#[tactic(auto, using(crate::proofs::OrderLemmas::in_order))]
fn opening_table(alloc: Global, opening: &Rows) -> Result<RouteTable, NoMemory>
    requires few { length opening.now ≤ MOST_ROWS }
    requires order { IsInOrder opening.now }
    requires distinct { HasDistinctNames opening.now }
    ensures { IfOk result (λ table. table.rows ≡ opening.now) }
{
    RouteTable::from_rows(alloc, Rows::new(copy_rows(alloc, opening.as_slice())?))
}

/// The table after these changes of opening rows. A change that the rows before it don't take, which no list of steps makes,
/// counts as a lack of memory.
pub fn table_after(
    alloc: Global,
    opening: &Rows,
    changes: &[Change],
) -> Result<RouteTable, NoMemory>
    requires few { length opening.now ≤ MOST_ROWS }
    requires order { IsInOrder opening.now }
    requires distinct { HasDistinctNames opening.now }
    ensures { IfOk result (λ table. table.rows ≡ after opening.now changes.now) }
{
    let mut table = opening_table(alloc, opening)?;
    for change in changes {
        let Ok(()) = table.apply(alloc, change.copy(alloc)?) else {
            return Err(NoMemory);
        };
    }
    Ok(table)
}
