ghost use Rattle.std.specs.Prelude.{◌≡◌, ◌+◌, ◌<◌, ◌≤◌, ◌^◌, ◌++◌, ◌∷◌, [], length, MatchBool};
ghost use mathlib.Core.List.{IsPrefix};
ghost use Rattle.route_history.specs.Rules.{head_of};

use crate::entry::Entry;
use crate::rule::{Add, Law, Nothing};
use logbook::{Offer, Seen, Start, Word};
use std::marker::{Brand, Model, PhantomData};
use std::sync::ledger::Ledger;

/// Which history of changes it is, the rows before any change, and the ledger of how many changes each bay made. The call of a
/// run picks all three.
pub trait RouteName: Ledger {
    ghost use Rattle.std.specs.Prelude.{List};
    ghost use Rattle.apiservice_rows.specs.Row.{Row};
    ghost use Rattle.logbook.specs.Pages.{Book};

    ghost home: { Book };

    ghost opening: { List Row };
}

impl RouteName for Brand {
    ghost use Rattle.std.specs.Prelude.{[]};

    ghost home = { record { number = 0; log_name = 0; cells_name = 0 } };

    ghost opening = { [] };
}

/// A history without changes, which has no name yet.
#[derive(Drop)]
pub struct NewHistory {
    head: Word<Entry, u64, Law>,
    seen: Seen<Entry, u64, Law>,
    pub ghost empty: { seen.log ≡ [] },
    pub ghost head_is: { head ≡ head_of seen.book },
}

impl NewHistory {
    pub fn new() -> NewHistory {
        let (seen, mut first, _second) = Seen::open(Start::alone(), 0, 0);
        NewHistory {
            head: Word::tracked(0, &mut first),
            seen,
        }
    }

    /// What adds to the history, under a name, and a prefix of it without changes.
    pub fn named<N: RouteName>(self) -> (HistoryHead<N>, HistoryPrefix<N>)
        requires { self.seen.book ≡ N.home }
        ensures { (result.1.home ≡ N.home) × (result.1.entries ≡ []) }
    {
        let NewHistory { head, seen } = self;
        (
            HistoryHead {
                head,
                of: PhantomData,
            },
            HistoryPrefix {
                count: 0,
                seen,
                of: PhantomData,
            },
        )
    }
}

/// What adds to a history: a word with its length.
#[derive(Drop)]
pub struct HistoryHead<N: RouteName> {
    head: Word<Entry, u64, Law>,
    of: PhantomData<N>,
    ghost head_is: { head ≡ head_of N.home },
}

/// A prefix of a history, which has no name any more. Contracts see which history it is, and its entries.
#[derive(Drop)]
pub struct SeenHistory {
    seen: Seen<Entry, u64, Law>,
}

impl Model for SeenHistory {
    ghost use Rattle.route_history.specs.History.{History};

    ghost Value = { History };

    ghost view = { λ s. record { home = s.seen.book; entries = s.seen.log } };
}

/// A prefix of a history, which has been reached. It is a number of changes and stores none of them. Contracts see which
/// history it is, and its entries.
#[derive(Drop)]
pub struct HistoryPrefix<N: RouteName> {
    count: u64,
    seen: Seen<Entry, u64, Law>,
    of: PhantomData<N>,
}

impl<N: RouteName> Model for HistoryPrefix<N> {
    ghost use Rattle.std.specs.Prelude.{◌≡◌, length};
    ghost use Rattle.route_history.specs.History.{History};

    ghost Value = { History };

    ghost view = { λ p. record { home = p.seen.book; entries = p.seen.log } };

    ghost invariant = { λ p. (p.count ≡ length p.seen.log) × (p.seen.book ≡ N.home) };
}

impl<N: RouteName> HistoryPrefix<N> {
    /// How many changes it has.
    pub fn len(&self) -> u64
        ensures count { result ≡ length self.now.entries }
        ensures home { self.now.home ≡ N.home }
    {
        self.count
    }

    /// An equal prefix.
    pub fn again(&self) -> HistoryPrefix<N>
        ensures { result ≡ self.now }
    {
        HistoryPrefix {
            count: self.count,
            seen: self.seen.again(),
            of: PhantomData,
        }
    }

    /// Another prefix, which is no shorter. It begins with this one.
    pub fn onto(&self, other: &HistoryPrefix<N>) -> HistoryPrefix<N>
        requires { length self.now.entries ≤ length other.now.entries }
        ensures same { result ≡ other.now }
        ensures begins { IsPrefix self.now.entries other.now.entries }
    {
        let mut both = self.seen.again();
        both.learn(&other.seen);
        other.again()
    }

    /// The same prefix without the name.
    pub fn unnamed(self) -> SeenHistory
        ensures { result ≡ self }
    {
        let HistoryPrefix { seen, .. } = self;
        SeenHistory { seen }
    }

    /// Adds an entry to a history that is no longer than this prefix, and says whether it did. Where the history is longer it
    /// adds none, and sees it.
    pub fn put(&mut self, head: &HistoryHead<N>, entry: &Entry) -> bool
        requires { length self.old.entries < 2 ^ 62 }
        ensures home { self.new.home ≡ self.old.home }
        ensures put { MatchBool result (self.new.entries ≡ self.old.entries ++ entry.now ∷ []) (IsPrefix self.old.entries self.new.entries) }
    {
        let mut offer: Offer<Entry, u64, Law, Nothing> = self
            .seen
            .plain::<Nothing, Entry, Add>(entry);
        let mut pen = self.seen.no_pen();
        let count = self.count;
        let found = head
            .head
            .compare_exchange::<Add, Nothing>(
                count,
                count + 1,
                &mut self.seen,
                &mut offer,
                &mut pen,
            );
        self.count = if found == count { count + 1 } else { found };
        found == count
    }
}
