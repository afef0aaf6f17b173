// All roles of a run, in threads.
ghost use Rattle.std.specs.Prelude.{◌≤◌, length};
ghost use Rattle.serve_roles.specs.Doors.{bay_handles};
ghost use Rattle.serve_roles.specs.Rooms as bay_rooms;
ghost use Rattle.serve_runs.specs.Ran.{CanEndLog, RanToEnd};
ghost use Rattle.sink_lanes.specs.Rooms as sink_rooms;

use crate::ending::{LogEnded, end_log};
use apiservice_table::Routes;
use front_ports::{Clock, Dial, Door};
use queue_drain::QueueDrain;
use role_ends::run_and_end;
use role_threads::Roles;
use serve_roles::{BayRole, EndRoom};
use session_core::Diary;
use sink_lanes::SinkRoom;
use std::sync::Wait;
use std::thread::Threads;
use truncate_backend::BatchSink;

// Runs bays and drainers until all have come to their end. Once bays and the log's drainer have, the rest of the log is put, whether the
// webhook's drainer has ended or not. A thread is given what it runs, so all of that can be sent to one.
pub(crate) fn run_all<
    R: Routes + Drop + Send,
    L: Dial + Drop + Send,
    W: BatchSink + Drop + Send,
    H: BatchSink + Drop + Send,
    T: Threads + Wait + Copy + Drop + Send + Sync,
    K: Clock + Drop + Send,
    Y: Diary + Drop + Send,
    D: Door + Drop + Send,
>(
    rt: &T,
    roles: Roles<BayRole<R, L, W, H, T, K, Y, D>, QueueDrain<W, T, K>, QueueDrain<H, T, K>>,
    room: EndRoom<R, L, W, H, T, K, Y, D>,
    log_room: SinkRoom<W, T>,
) -> (
    LogEnded<R, L, W, H, T, K, Y, D>,
    Option<QueueDrain<H, T, K>>,
)
where
    <D as Door>::C: Send,
    <L as Dial>::K: Send,
    requires room { length roles.bays.items ≤ bay_rooms.room_for room }
    requires log_room { length roles.bays.items ≤ sink_rooms.room_for log_room }
    requires log { CanEndLog
        (bay_handles R.Routes L.Dial W.BatchSink H.BatchSink K.Clock Y.Diary D.Door D.C.Source D.C.ByteSink D.C.Conn.own) roles.bays.items roles.log }
    ensures { RanToEnd (bay_handles R.Routes L.Dial W.BatchSink H.BatchSink K.Clock Y.Diary D.Door D.C.Source D.C.ByteSink D.C.Conn.own)
        roles result.0 result.1 }
{
    run_and_end(
        rt,
        roles,
        move |bays, log| end_log(room, log_room, bays, log),
    )
}
