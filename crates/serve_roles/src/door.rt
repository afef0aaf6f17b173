ghost use Rattle.serve_roles.specs.Doors.{RanDoor, bay_handles};
ghost use Rattle.serve_roles.specs.Ready.{CanServe};

use any_lane::AnyLane;
use apiservice_table::Routes;
use audit_core::Settings;
use bay_laws::a_door_is_told_whole;
use bay_runs::{BayStop, EndCounts, run_bay};
use front_ports::{Clock, Dial, Door};
use local_replies::LocalPaths;
use session_core::{Bay, Diary};
use std::alloc::Global;
use std::sync::Wait;
use truncate_backend::BatchSink;

// Serves the connections of a door until the bay stops.
pub(crate) fn serve_door<
    R: Routes,
    L: Dial,
    W: BatchSink + Drop,
    H: BatchSink + Drop,
    T: Wait + Copy + Drop,
    K: Clock,
    Y: Diary,
    D: Door,
>(
    rt: &T,
    alloc: Global,
    settings: &Settings,
    paths: &LocalPaths,
    bay: &mut Bay<R, L, AnyLane<W, T>, AnyLane<H, T>, K, Y>,
    counts: &mut EndCounts,
    door: &mut D,
) -> BayStop
    requires { CanServe settings.now bay.old }
    ensures ready { CanServe settings.now bay.new }
    ensures ran { RanDoor (bay_handles R.Routes L.Dial W.BatchSink H.BatchSink K.Clock Y.Diary D.Door D.C.Source D.C.ByteSink D.C.Conn.own)
        settings.now bay.old door.old counts.old result bay.new door.new counts.new }
{
    a_door_is_told_whole::<D::C>();
    let stop = run_bay(rt, alloc, settings, paths, bay, counts, door);
    stop
}
