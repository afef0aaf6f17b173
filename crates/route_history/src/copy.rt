ghost use Rattle.std.specs.Prelude.{◌≡◌, ◌<◌, ◌-◌, ◌++◌, ◌∷◌, [], List, length, OnOk, OnErr, Some, slice_get};
ghost use Rattle.apiservice_rows.specs.Row.{Row};
ghost use Rattle.apiservice_table.specs.Changes.{after, changed};
ghost use Rattle.route_history.specs.History.{changes_of};
ghost use Rattle.route_history.specs.declared.entry.Entry.{Entry};

use crate::entry::Entry;
use crate::history::{HistoryPrefix, RouteName};
use crate::prefix::Prefix;
use apiservice_table::{Change, RouteTable};
use left_right::Absorb;
use std::alloc::{AllocError, Global};

/// One copy of the table, with the prefix of the history that it is after.
#[derive(Drop)]
pub struct RouteCopy<N: RouteName> {
    alloc: Global,
    table: RouteTable,
    pub prefix: HistoryPrefix<N>,
    ghost kept: { table.rows ≡ after N.opening (changes_of prefix.entries) },
}

/// The entry that a prefix of the history ends with.
#[derive(Drop)]
pub struct NextChange<N: RouteName> {
    entry: Entry,
    pub prefix: HistoryPrefix<N>,
    ghost some: { 0 < length prefix.entries },
    ghost last: { slice_get prefix.entries (length prefix.entries - 1) ≡ Some entry },
}

impl<N: RouteName> RouteCopy<N> {
    /// A copy with the rows after that prefix.
    pub fn new(alloc: Global, table: RouteTable, prefix: HistoryPrefix<N>) -> RouteCopy<N>
        requires { table.rows ≡ after N.opening (changes_of prefix.entries) }
        ensures { result.prefix ≡ prefix }
    {
        RouteCopy {
            alloc,
            table,
            prefix,
        }
    }
}

// Makes a copy of a change in a table that takes it.
fn apply_copy(alloc: Global, table: &mut RouteTable, change: &Change) -> Result<(), AllocError>
    ensures done { OnOk result (table.new.rows ≡ changed table.old.rows change.now) }
    ensures kept { OnErr result (table.new ≡ table.old) }
{
    let Ok(change) = change.copy(alloc) else {
        return Err(AllocError);
    };
    match table.apply(alloc, change) {
        Ok(()) => Ok(()),
        Err(_) => Err(AllocError),
    }
}

impl<N: RouteName> Absorb<NextChange<N>> for RouteCopy<N> {
    type State = HistoryPrefix<N>;

    ghost state = { λ copy. copy.prefix };

    ghost applied = { λ _ next. next.prefix };

    fn absorb_first(
        &mut self,
        next: &NextChange<N>,
        _other: &RouteCopy<N>,
    ) -> Result<(), AllocError> {
        if next.prefix.len() - 1 != self.prefix.len() {
            return Err(AllocError);
        }
        let prefix = self.prefix.onto(&next.prefix);
        apply_copy(self.alloc, &mut self.table, &next.entry.change)?;
        self.prefix = prefix;
        Ok(())
    }
}

/// What bays need of a copy of the table, and of a change of it.
pub trait TableCopy<P: Prefix, O>: Drop {
    /// The prefix that the copy is after.
    ghost shows: { Self → P };

    ghost rows: { Self → List Row };

    /// The prefix after a change.
    ghost reaches: { O → P };

    fn prefix(&self) -> &P
        ensures { result.now ≡ shows self.now };

    fn table(&self) -> &RouteTable
        ensures { result.now.rows ≡ rows self.now };

    /// The last entry of a prefix.
    fn next(entry: Entry, prefix: P) -> O
        requires { (before : List Entry) × ((P.history prefix).entries ≡ before ++ entry ∷ []) }
        ensures { reaches result ≡ prefix };
}

impl<N: RouteName> TableCopy<HistoryPrefix<N>, NextChange<N>> for RouteCopy<N> {
    ghost shows = { λ copy. copy.prefix };

    ghost rows = { λ copy. copy.table.rows };

    ghost reaches = { λ next. next.prefix };

    fn prefix(&self) -> &HistoryPrefix<N> {
        &self.prefix
    }

    fn table(&self) -> &RouteTable {
        &self.table
    }

    fn next(entry: Entry, prefix: HistoryPrefix<N>) -> NextChange<N>
        requires { (before : List Entry) × (prefix.entries ≡ before ++ entry ∷ []) }
        ensures { result.prefix ≡ prefix }
    {
        NextChange { entry, prefix }
    }
}
