ghost use Rattle.std.specs.Prelude.{◌≡◌, ◌≤◌, ◌<◌, ◌++◌, [], length, vec_capacity};
ghost use Rattle.sink_lanes.specs.Ends as spec;
ghost use Rattle.sink_lanes.specs.Rooms.{room_for};

use crate::room::SinkRoom;
use any_lane::AnyLane;
use front_ports::Clock;
use queue_drain::{DrainEnd, QueueDrain};
use shared_queue::QueueLane;
use std::sync::Wait;
use truncate_backend::{BatchSink, OwnLane};

/// What is left of a sink.
#[derive(Drop)]
pub struct SinkEnd<S, K> {
    /// The sinks that bays had of their own, in the order of the bays.
    pub own: Vec<S>,
    /// What the drainer leaves, in batch mode.
    pub drain: Option<DrainEnd<S, K>>,
}

// A bay's part of a queue, and its own sink, whichever it has.
fn part_lane<S, R: Wait + Copy + Drop>(lane: AnyLane<S, R>) -> (Option<QueueLane<R>>, Option<S>)
    ensures { (result.0 ≡ spec.queued_part lane) × (result.1 ≡ spec.own_part lane) }
{
    match lane {
        AnyLane::Off(_) => (None, None),
        AnyLane::Queue(lane) => (Some(lane), None),
        AnyLane::Own(lane) => {
            let OwnLane { sink } = lane;
            (None, Some(sink))
        }
    }
}

// One more, if there is one.
fn push_some<A>(list: &mut Vec<A>, item: Option<A>)
    requires room { length list.old.items < vec_capacity list.old }
    ensures items { list.new.items ≡ list.old.items ++ spec.some_first item [] }
    ensures room { vec_capacity list.new ≡ vec_capacity list.old }
{
    if let Some(item) = item {
        list.push_reserved(item);
    }
}

fn part_lanes<S: Drop, R: Wait + Copy + Drop>(
    room: SinkRoom<S, R>,
    lanes: Vec<AnyLane<S, R>>,
) -> (Vec<QueueLane<R>>, Vec<S>)
    requires room { length lanes.items ≤ room_for room }
    ensures queued { result.0.items ≡ spec.queued_parts lanes.items }
    ensures own { result.1.items ≡ spec.own_parts lanes.items }
{
    let SinkRoom {
        bays: _,
        mut queued,
        mut own,
    } = room;
    for lane in lanes {
        let (part, sink) = part_lane(lane);
        push_some(&mut queued, part);
        push_some(&mut own, sink);
    }
    (queued, own)
}

/// Takes the lanes of a sink back, and puts what is left of their queue.
pub fn end_lanes<S: BatchSink + Drop, R: Wait + Copy + Drop, K: Clock + Drop>(
    room: SinkRoom<S, R>,
    lanes: Vec<AnyLane<S, R>>,
    drain: Option<QueueDrain<S, R, K>>,
) -> SinkEnd<S, K>
    requires room { length lanes.items ≤ room_for room }
    requires queue { spec.CanEnd S.BatchSink K.Clock (spec.queued_parts lanes.items) drain }
    ensures own { result.own.items ≡ spec.own_parts lanes.items }
    ensures queue { spec.Ends S.BatchSink K.Clock (spec.queued_parts lanes.items) drain result.drain }
{
    let (queued, own) = part_lanes(room, lanes);
    match drain {
        Some(drain) => SinkEnd {
            own,
            drain: Some(drain.finish(queued)),
        },
        None => SinkEnd { own, drain: None },
    }
}
