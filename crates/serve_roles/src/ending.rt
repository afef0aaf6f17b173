ghost use Rattle.std.specs.Prelude.{◌≡◌, ◌≤◌, length, map};
ghost use Rattle.serve_roles.specs.Ends as spec;
ghost use Rattle.serve_roles.specs.Rooms.{room_for};

use crate::bay_end::{BayEnd, EndedBays};
use crate::bay_role::BayRole;
use crate::ready_bay::ReadyBay;
use crate::room::EndRoom;
use any_lane::AnyLane;
use event_offers::Lanes;
use session_core::Bay;
use std::sync::Wait;

// A bay is taken apart: its end, and its lanes.
fn end_bay<R, L, W, H, T: Wait + Copy + Drop, K, Y, D>(
    role: BayRole<R, L, W, H, T, K, Y, D>,
) -> (BayEnd<R, L, K, Y, D>, AnyLane<W, T>, AnyLane<H, T>)
    ensures end { result.0 ≡ spec.bay_end role }
    ensures lanes { (result.1 ≡ spec.log_lane role) × (result.2 ≡ spec.hook_lane role) }
{
    let BayRole {
        alloc: _,
        paths: _,
        own,
        door,
        counts,
        stop,
    } = role;
    let ReadyBay { settings: _, bay } = own;
    let Bay {
        boot,
        number,
        routes,
        dial,
        lanes,
        clock,
        diary,
    } = bay;
    let Lanes {
        bay,
        log,
        hook,
        log_lines,
        hook_lines,
    } = lanes;
    let end = BayEnd {
        bay,
        boot,
        number,
        log_lines,
        hook_lines,
        counts,
        stop,
        door,
        routes,
        dial,
        clock,
        diary,
    };
    (end, log, hook)
}

/// Takes bays apart.
pub fn end_bays<
    R: Drop,
    L: Drop,
    W: Drop,
    H: Drop,
    T: Wait + Copy + Drop,
    K: Drop,
    Y: Drop,
    D: Drop,
>(
    room: EndRoom<R, L, W, H, T, K, Y, D>,
    bays: Vec<BayRole<R, L, W, H, T, K, Y, D>>,
) -> EndedBays<R, L, W, H, T, K, Y, D>
    requires room { length bays.items ≤ room_for room }
    ensures ends { result.ends.items ≡ map spec.bay_end bays.items }
    ensures logs { result.logs.items ≡ map spec.log_lane bays.items }
    ensures hooks { result.hooks.items ≡ map spec.hook_lane bays.items }
{
    let EndRoom { bays: _, empty } = room;
    let EndedBays {
        mut ends,
        mut logs,
        mut hooks,
    } = empty;
    for role in bays {
        let (end, log, hook) = end_bay(role);
        ends.push_reserved(end);
        logs.push_reserved(log);
        hooks.push_reserved(hook);
    }
    EndedBays { ends, logs, hooks }
}
