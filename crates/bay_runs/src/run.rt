// The connections of a door, one after another.
ghost use Rattle.std.specs.Prelude.{◌≡◌, IfOk, IfErr};
ghost use Rattle.bay_runs.specs.Loop.{ServesNext, GivesNone};
ghost use Rattle.bay_runs.specs.Runs as spec;
ghost use Rattle.session_core.specs.Bays.{bay_state, IsReady};

use crate::bay_stop::BayStop;
use crate::end_counts::EndCounts;
use apiservice_table::Routes;
use audit_core::Settings;
use front_ports::{Clock, Dial, Door};
use local_replies::LocalPaths;
use session_core::{Bay, ConnEnd, Diary, serve_connection};
use std::alloc::Global;
use std::sync::Wait;
use truncate_backend::Lane;

// Whether it found a request without a number.
fn is_spent(end: ConnEnd) -> bool
    ensures { result ≡ spec.is_spent end }
{
    match end {
        ConnEnd::NumbersSpent => true,
        _ => false,
    }
}

// Serves the next connection of a door.
fn serve_next<O: Door, R: Routes, D: Dial, A: Lane, B: Lane, K: Clock, Y: Diary>(
    alloc: Global,
    settings: &Settings,
    paths: &LocalPaths,
    bay: &mut Bay<R, D, A, B, K, Y>,
    counts: &mut EndCounts,
    door: &mut O,
) -> Result<ConnEnd, BayStop>
    requires ready { IsReady settings.now (bay_state R.Routes D.Dial A.Lane B.Lane K.Clock Y.Diary bay.old) }
    ensures ready { IsReady settings.now (bay_state R.Routes D.Dial A.Lane B.Lane K.Clock Y.Diary bay.new) }
    ensures ok { IfOk result (λ end. ServesNext (spec.conn_tells O.C.Source O.C.ByteSink O.C.Conn.own) settings.now
        (bay_state R.Routes D.Dial A.Lane B.Lane K.Clock Y.Diary bay.old) (spec.door_state O.Door door.old) end
        (bay_state R.Routes D.Dial A.Lane B.Lane K.Clock Y.Diary bay.new) (spec.door_state O.Door door.new) counts.old counts.new) }
    ensures err { IfErr result (λ stop. GivesNone (spec.door_state O.Door door.old) (spec.door_state O.Door door.new) stop
        × (bay.new ≡ bay.old) × (counts.new ≡ counts.old)) }
{
    match door.next() {
        Ok(Some(mut conn)) => {
            let end = serve_connection(alloc, settings, paths, bay, &mut conn);
            counts.count(end);
            door.done(conn);
            Ok(end)
        }
        Ok(None) => Err(BayStop::Closed),
        Err(_) => Err(BayStop::DoorFault),
    }
}

/// Serves the connections of a door until the bay stops, each as `serve_connection` does, hands each back, and counts its
/// end. One that ran out of memory is counted too, and the next one is served.
///
/// `Closed` comes exactly where the door answered that no other connection comes, and `DoorFault` where it failed.
/// `NumbersSpent` comes exactly where a whole request stood next on the last connection and the bay had no number for it.
pub fn run_bay<O: Door, R: Routes, D: Dial, A: Lane, B: Lane, K: Clock, Y: Diary, W: Wait>(
    rt: &W,
    alloc: Global,
    settings: &Settings,
    paths: &LocalPaths,
    bay: &mut Bay<R, D, A, B, K, Y>,
    counts: &mut EndCounts,
    door: &mut O,
) -> BayStop
    requires ready { IsReady settings.now (bay_state R.Routes D.Dial A.Lane B.Lane K.Clock Y.Diary bay.old) }
    ensures ready { IsReady settings.now (bay_state R.Routes D.Dial A.Lane B.Lane K.Clock Y.Diary bay.new) }
    ensures runs { spec.Runs (spec.conn_tells O.C.Source O.C.ByteSink O.C.Conn.own) settings.now
        (bay_state R.Routes D.Dial A.Lane B.Lane K.Clock Y.Diary bay.old) (spec.door_state O.Door door.old) result
        (bay_state R.Routes D.Dial A.Lane B.Lane K.Clock Y.Diary bay.new) (spec.door_state O.Door door.new) counts.old counts.new }
{
    for _ in rt.forever() {
        match serve_next(alloc, settings, paths, bay, counts, door) {
            Ok(kind) => {
                if is_spent(kind) {
                    return BayStop::NumbersSpent;
                }
            }
            Err(stop) => return stop,
        }
    }
    unreachable!()
}
