// What is left of bays and of the log, once these have come to their end.
ghost use Rattle.std.specs.Prelude.{◌≡◌, ◌≤◌, length, map};
ghost use Rattle.serve_roles.specs.Ends as bay_ends;
ghost use Rattle.serve_roles.specs.Rooms as bay_rooms;
ghost use Rattle.sink_lanes.specs.Ends as sink_ends;
ghost use Rattle.sink_lanes.specs.Rooms as sink_rooms;

use any_lane::AnyLane;
use front_ports::Clock;
use queue_drain::QueueDrain;
use serve_roles::{BayEnd, BayRole, EndRoom, EndedBays, end_bays};
use sink_lanes::{SinkEnd, SinkRoom, end_lanes};
use std::sync::Wait;
use truncate_backend::BatchSink;

// The ends of bays and of the log, and the lanes of the webhook, whose drainer may still run.
#[derive(Drop)]
pub(crate) struct LogEnded<R, L, W, H, T: Wait + Copy + Drop, K, Y, D> {
    pub(crate) bays: Vec<BayEnd<R, L, K, Y, D>>,
    pub(crate) log: SinkEnd<W, K>,
    pub(crate) hooks: Vec<AnyLane<H, T>>,
}

// Takes bays apart, and puts what is left of the log's queue.
pub(crate) fn end_log<
    R: Drop,
    L: Drop,
    W: BatchSink + Drop,
    H: Drop,
    T: Wait + Copy + Drop,
    K: Clock + Drop,
    Y: Drop,
    D: Drop,
>(
    room: EndRoom<R, L, W, H, T, K, Y, D>,
    log_room: SinkRoom<W, T>,
    bays: Vec<BayRole<R, L, W, H, T, K, Y, D>>,
    log: Option<QueueDrain<W, T, K>>,
) -> LogEnded<R, L, W, H, T, K, Y, D>
    requires room { length bays.items ≤ bay_rooms.room_for room }
    requires log_room { length bays.items ≤ sink_rooms.room_for log_room }
    requires queue { sink_ends.CanEnd W.BatchSink K.Clock (sink_ends.queued_parts (map bay_ends.log_lane bays.items)) log }
    ensures bays { result.bays.items ≡ map bay_ends.bay_end bays.items }
    ensures hooks { result.hooks.items ≡ map bay_ends.hook_lane bays.items }
    ensures own { result.log.own.items ≡ sink_ends.own_parts (map bay_ends.log_lane bays.items) }
    ensures queue { sink_ends.Ends W.BatchSink K.Clock (sink_ends.queued_parts (map bay_ends.log_lane bays.items)) log result.log.drain }
{
    let EndedBays { ends, logs, hooks } = end_bays(room, bays);
    let log = end_lanes(log_room, logs, log);
    LogEnded {
        bays: ends,
        log,
        hooks,
    }
}
