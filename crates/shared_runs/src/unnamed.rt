// What bays leave, without the name of their history, and whether their changes were counted.
ghost use Rattle.std.specs.Prelude.{◌≡◌, ◌≤◌, ◌+◌, [], true, All, List, length, map, vec_capacity};
ghost use Rattle.route_history.specs.declared.entry.Entry.{Entry};
ghost use Rattle.shared_routes.specs.Makers.{AreMade, AreNumbered, own_count};
ghost use Rattle.shared_runs.specs.Histories.{SawWhole, SawOne};
ghost use Rattle.shared_runs.specs.Unnamed as spec;

use left_right::Absorb;
use route_history::{Prefix, SeenHistory, TableCopy};
use route_writer::RouteWriter;
use serve_roles::BayEnd;
use shared_routes::{SharedRoutes, counted_changes_are_made};
use std::sync::ledger::{Ledger, Share};
use std::sync::{Mutex, Wait};

// Of a bay's routes what they saw is left, and what their share counts joins others. They fit as long as each bay has its number,
// and saw no more than this prefix.
fn unnamed_end<
    P: Prefix,
    G: Ledger,
    T: TableCopy<P, O> + Absorb<O, State = P>,
    O: Drop,
    R: Wait + Copy + Drop,
    L,
    K,
    Y,
    D,
>(
    end: BayEnd<SharedRoutes<P, G, T, O, R>, L, K, Y, D>,
    whole: &P,
    number: u64,
    fits: &mut bool,
    all: &mut Share<G>,
) -> BayEnd<SeenHistory, L, K, Y, D>
    ensures end { result ≡ spec.unnamed_end end }
    ensures parts { all.new.parts ≡ all.old.parts + 1 }
    ensures amount { all.new.amount ≡ all.old.amount + length end.routes.places }
    ensures number { fits.new ≡ true → (fits.old ≡ true) × (end.routes.bay ≡ number) }
    ensures within { fits.new ≡ true → SawWhole P.home P.opening (P.history whole.now).entries end }
{
    let BayEnd {
        bay,
        boot,
        number: requests,
        log_lines,
        hook_lines,
        counts,
        stop,
        door,
        routes,
        dial,
        clock,
        diary,
    } = end;
    routes.tells_its_home();
    BayEnd {
        bay,
        boot,
        number: requests,
        log_lines,
        hook_lines,
        counts,
        stop,
        door,
        routes: routes.into_seen(whole, number, fits, all),
        dial,
        clock,
        diary,
    }
}

// What bays leave, in a list that has room for it, and what their shares count.
fn unnamed_ends<
    P: Prefix,
    G: Ledger,
    T: TableCopy<P, O> + Absorb<O, State = P>,
    O: Drop,
    R: Wait + Copy + Drop,
    L: Drop,
    K: Drop,
    Y: Drop,
    D: Drop,
>(
    room: Vec<BayEnd<SeenHistory, L, K, Y, D>>,
    ends: Vec<BayEnd<SharedRoutes<P, G, T, O, R>, L, K, Y, D>>,
    whole: &P,
    fits: &mut bool,
    all: &mut Share<G>,
) -> Vec<BayEnd<SeenHistory, L, K, Y, D>>
    requires none { room.items ≡ [] }
    requires room { length ends.items ≤ vec_capacity room }
    requires share { (all.old.parts ≡ 0) × (all.old.amount ≡ 0) }
    ensures items { result.items ≡ map spec.unnamed_end ends.items }
    ensures parts { all.new.parts ≡ length ends.items }
    ensures amount { all.new.amount ≡ own_count (map spec.routes_of ends.items) }
    ensures numbered { fits.new ≡ true → AreNumbered 0 (map spec.routes_of ends.items) }
    ensures within { fits.new ≡ true → All (SawWhole P.home P.opening (P.history whole.now).entries) ends.items }
{
    let mut left = room;
    for end in ends {
        let number = left.len() as u64;
        left.push_reserved(unnamed_end(end, whole, number, fits, all));
    }
    left
}

/// What bays leave, without the name of their history.
pub struct Closed<L, K, Y, D> {
    pub bays: Vec<BayEnd<SeenHistory, L, K, Y, D>>,
    /// Whether all that is published was counted.
    pub counted: bool,
}

// The same by the writer, which nobody else has meanwhile.
fn close_by<
    P: Prefix,
    G: Ledger,
    T: TableCopy<P, O> + Absorb<O, State = P>,
    O: Drop,
    R: Wait + Copy + Drop,
    L: Drop,
    K: Drop,
    Y: Drop,
    D: Drop,
>(
    writer: &mut RouteWriter<P, G, T, O, R>,
    bays: u16,
    room: Vec<BayEnd<SeenHistory, L, K, Y, D>>,
    ends: Vec<BayEnd<SharedRoutes<P, G, T, O, R>, L, K, Y, D>>,
) -> Closed<L, K, Y, D>
    requires none { room.items ≡ [] }
    requires room { length ends.items ≤ vec_capacity room }
    requires parts { G.parts ≡ bays }
    ensures items { result.bays.items ≡ map spec.unnamed_end ends.items }
    ensures counted { result.counted ≡ true → (history : List Entry)
        × All (SawOne P.home P.opening history) ends.items × AreMade history (map spec.routes_of ends.items) }
{
    let whole = writer.published_prefix();
    let mut all = writer.empty_share();
    let mut fits = true;
    let left = unnamed_ends(room, ends, &whole, &mut fits, &mut all);
    if !fits || left.len() != usize::from(bays) {
        return Closed {
            bays: left,
            counted: false,
        };
    }
    writer.audit(&mut all);
    counted_changes_are_made();
    Closed {
        bays: left,
        counted: true,
    }
}

/// Takes the names from what bays leave, in a list that has room for it, and counts the changes that are published. They are not
/// counted where routes of a bay are missing or have another number than their place, or saw more than is published: no type says
/// that none did.
pub fn close_bays<
    P: Prefix,
    G: Ledger,
    T: TableCopy<P, O> + Absorb<O, State = P>,
    O: Drop,
    R: Wait + Copy + Drop,
    L: Drop,
    K: Drop,
    Y: Drop,
    D: Drop,
>(
    rt: &R,
    writer: &Mutex<RouteWriter<P, G, T, O, R>>,
    bays: u16,
    room: Vec<BayEnd<SeenHistory, L, K, Y, D>>,
    ends: Vec<BayEnd<SharedRoutes<P, G, T, O, R>, L, K, Y, D>>,
) -> Closed<L, K, Y, D>
    requires none { room.items ≡ [] }
    requires room { length ends.items ≤ vec_capacity room }
    requires parts { G.parts ≡ bays }
    ensures items { result.bays.items ≡ map spec.unnamed_end ends.items }
    ensures counted { result.counted ≡ true → (history : List Entry)
        × All (SawOne P.home P.opening history) ends.items × AreMade history (map spec.routes_of ends.items) }
{
    let mut writer = writer.lock(rt);
    close_by(&mut *writer, bays, room, ends)
}
