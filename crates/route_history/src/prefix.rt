ghost use Rattle.std.specs.Prelude.{◌≡◌, ◌<◌, ◌≤◌, ◌^◌, ◌++◌, ◌∷◌, [], List, length, MatchBool};
ghost use mathlib.Core.List.{IsPrefix};
ghost use Rattle.apiservice_rows.specs.Row.{Row};
ghost use Rattle.logbook.specs.Pages.{Book};
ghost use Rattle.route_history.specs.History.{History};

use crate::entry::Entry;
use crate::history::{HistoryHead, HistoryPrefix, RouteName, SeenHistory};

/// A prefix of the one history that its type names.
pub trait Prefix: Drop {
    /// What adds to the history.
    type Head: Drop;

    /// Which history it is.
    ghost home: { Book };

    /// The rows before any change.
    ghost opening: { List Row };

    ghost history: { Self → History };

    /// How many changes it has.
    fn size(&self) -> u64
        ensures count { result ≡ length (history self.now).entries }
        ensures home { (history self.now).home ≡ home };

    /// An equal prefix.
    fn copy(&self) -> Self
        ensures { history result ≡ history self.now };

    /// Another prefix, which is no shorter. It begins with this one.
    fn later(&self, other: &Self) -> Self
        requires { length (history self.now).entries ≤ length (history other.now).entries }
        ensures same { history result ≡ history other.now }
        ensures begins { IsPrefix (history self.now).entries (history other.now).entries };

    /// The same prefix without the name.
    fn unnamed(self) -> SeenHistory
        ensures { result ≡ history self };

    /// Adds an entry to a history that is no longer than this prefix, and says whether it did.
    fn add(&mut self, head: &Self::Head, entry: &Entry) -> bool
        requires { length (history self.old).entries < 2 ^ 62 }
        ensures home { (history self.new).home ≡ (history self.old).home }
        ensures added { MatchBool result ((history self.new).entries ≡ (history self.old).entries ++ entry.now ∷ [])
            (IsPrefix (history self.old).entries (history self.new).entries) };
}

impl<N: RouteName> Prefix for HistoryPrefix<N> {
    type Head = HistoryHead<N>;

    ghost home = { N.home };

    ghost opening = { N.opening };

    ghost history = { λ p. p };

    fn size(&self) -> u64 {
        self.len()
    }

    fn copy(&self) -> HistoryPrefix<N> {
        self.again()
    }

    fn later(&self, other: &HistoryPrefix<N>) -> HistoryPrefix<N> {
        self.onto(other)
    }

    fn unnamed(self) -> SeenHistory {
        HistoryPrefix::unnamed(self)
    }

    fn add(&mut self, head: &HistoryHead<N>, entry: &Entry) -> bool {
        self.put(head, entry)
    }
}
