// What the bays of a run saw of their one history.
ghost use Rattle.std.specs.Prelude.{◌≡◌, All, List};
ghost use mathlib.Core.List.{IsPrefix};
ghost use Rattle.route_history.specs.declared.entry.Entry.{Entry};
ghost use Rattle.shared_runs.specs.Histories.{SawOne};

use left_right::Absorb;
use route_history::{Prefix, TableCopy};
use serve_roles::BayEnd;
use shared_routes::SharedRoutes;
use std::sync::Wait;
use std::sync::ledger::Ledger;

// Of two prefixes of a history the longer one.
fn longer<P: Prefix>(one: P, other: P) -> P
    ensures one { IsPrefix (P.history one).entries (P.history result).entries }
    ensures other { IsPrefix (P.history other).entries (P.history result).entries }
{
    if one.size() <= other.size() {
        one.later(&other)
    } else {
        other.later(&one)
    }
}

// All that the bays saw, where the first saw this.
fn whole<
    P: Prefix,
    G: Ledger,
    T: TableCopy<P, O> + Absorb<O, State = P>,
    O: Drop,
    R: Wait + Copy + Drop,
    L,
    K,
    Y,
    D,
>(first: P, ends: &[BayEnd<SharedRoutes<P, G, T, O, R>, L, K, Y, D>]) -> P
    ensures { All (SawOne P.home P.opening (P.history result).entries) ends.now }
{
    let mut longest = first;
    for end in ends {
        end.routes.tells_its_home();
        longest = longer(longest, end.routes.prefix());
    }
    longest
}

/// What each bay saw is a prefix of one list of entries, and all are of the history that their type names.
pub fn all_saw_one<
    P: Prefix,
    G: Ledger,
    T: TableCopy<P, O> + Absorb<O, State = P>,
    O: Drop,
    R: Wait + Copy + Drop,
    L,
    K,
    Y,
    D,
>(ends: &[BayEnd<SharedRoutes<P, G, T, O, R>, L, K, Y, D>])
    ensures { (history : List Entry) × All (SawOne P.home P.opening history) ends.now }
{
    if let Some(first) = ends.first() {
        whole(first.routes.prefix(), ends);
    }
}
