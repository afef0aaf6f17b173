ghost use Rattle.std.specs.Prelude.{◌≡◌, [], IfOk};

use crate::copy::RouteCopy;
use crate::history::{HistoryHead, HistoryPrefix, NewHistory, RouteName};
use apiservice_rows::{Row, Rows};
use apiservice_table::RouteTable;
use front_base::NoMemory;
use std::alloc::Global;
use std::marker::Model;

/// A table that bays are to share, in two copies, with a history without changes. It has no name yet. Contracts see which
/// history it is, and the rows.
#[derive(Drop)]
pub struct NewRoutes {
    history: NewHistory,
    first: RouteTable,
    second: RouteTable,
    alloc: Global,
}

impl Model for NewRoutes {
    ghost use Rattle.std.specs.Prelude.{◌≡◌};
    ghost use Rattle.route_history.specs.History.{Beginning};

    ghost Value = { Beginning };

    ghost view = { λ r. record { home = r.history.seen.book; opening = r.first.rows } };

    ghost invariant = { λ r. r.second.rows ≡ r.first.rows };
}

/// The parts of shared routes under a name.
pub struct NamedRoutes<N: RouteName> {
    pub head: HistoryHead<N>,
    pub prefix: HistoryPrefix<N>,
    pub first: RouteCopy<N>,
    pub second: RouteCopy<N>,
}

fn copy_rows(alloc: Global, rows: &[Row]) -> Result<Vec<Row>, NoMemory>
    ensures { IfOk result (λ copies. copies.items ≡ rows.now) }
{
    let mut copies = Vec::new(alloc);
    for row in rows {
        copies.push(row.copy(alloc)?)?;
    }
    Ok(copies)
}

// A table of the same rows.
fn second_table(alloc: Global, table: &RouteTable) -> Result<RouteTable, NoMemory>
    ensures { IfOk result (λ second. second.rows ≡ table.now.rows) }
{
    let rows = Rows::new(copy_rows(alloc, table.rows())?);
    let second = RouteTable::from_rows(alloc, rows)?;
    Ok(second)
}

impl NewRoutes {
    /// Routes over that table, with a history of their own.
    pub fn new(alloc: Global, table: RouteTable) -> Result<NewRoutes, NoMemory>
        ensures { IfOk result (λ routes. routes.opening ≡ table.rows) }
    {
        let second = second_table(alloc, &table)?;
        Ok(NewRoutes {
            history: NewHistory::new(),
            first: table,
            second,
            alloc,
        })
    }

    /// Their parts, under a name that fits them.
    pub fn named<N: RouteName>(self) -> NamedRoutes<N>
        requires home { self.home ≡ N.home }
        requires opening { self.opening ≡ N.opening }
        ensures prefix { (result.prefix.home ≡ N.home) × (result.prefix.entries ≡ []) }
        ensures first { result.first.prefix ≡ result.prefix }
        ensures second { result.second.prefix ≡ result.prefix }
    {
        let NewRoutes {
            history,
            first,
            second,
            alloc,
        } = self;
        let (head, prefix) = history.named::<N>();
        NamedRoutes {
            head,
            first: RouteCopy::new(alloc, first, prefix.again()),
            second: RouteCopy::new(alloc, second, prefix.again()),
            prefix,
        }
    }
}
