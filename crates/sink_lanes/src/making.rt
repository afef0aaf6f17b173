ghost use Rattle.std.specs.Prelude.{◌≡◌, ◌<◌, ◌≤◌, [], None, IfOk, IfSome, All, length, map};
ghost use Rattle.shared_queue.specs.declared.making.TheConstants.{MOST_LANES, MOST_ALLOTTED};
ghost use Rattle.sink_lanes.specs.Lanes as spec;

use any_lane::AnyLane;
use batch_backend::Limits;
use front_base::NoMemory;
use front_ports::Clock;
use queue_drain::QueueDrain;
use shared_queue::{QueueLane, make_queue};
use std::alloc::Global;
use std::sync::Wait;
use truncate_backend::{BatchSink, OwnLane};

/// The lanes of all bays for a sink, in the order of the bays.
#[derive(Drop)]
pub struct SinkLanes<S, R: Wait + Copy + Drop, K> {
    pub lanes: Vec<AnyLane<S, R>>,
    /// Who drains their queue, in batch mode.
    pub drain: Option<QueueDrain<S, R, K>>,
}

/// The lanes of a sink that is off.
pub fn off_lanes<S: Drop, R: Wait + Copy + Drop, K: Drop>(
    alloc: Global,
    bays: u16,
) -> Result<SinkLanes<S, R, K>, NoMemory>
    ensures lanes { IfOk result (λ made. spec.AllOff made.lanes.items × (length made.lanes.items ≡ bays)) }
    ensures drain { IfOk result (λ made. made.drain ≡ None) }
{
    let mut lanes = Vec::new(alloc);
    for _ in 0..bays {
        lanes.push(AnyLane::Off(0))?;
    }
    Ok(SinkLanes { lanes, drain: None })
}

/// The lanes of sinks that bays have of their own.
pub fn own_lanes<S: Drop, R: Wait + Copy + Drop, K: Drop>(
    alloc: Global,
    sinks: Vec<S>,
) -> Result<SinkLanes<S, R, K>, NoMemory>
    ensures lanes { IfOk result (λ made. made.lanes.items ≡ map spec.own_lane sinks.items) }
    ensures drain { IfOk result (λ made. made.drain ≡ None) }
{
    let mut lanes = Vec::new(alloc);
    for sink in sinks {
        lanes.push(AnyLane::Own(OwnLane { sink }))?;
    }
    Ok(SinkLanes { lanes, drain: None })
}

fn wrap_lanes<S: Drop, R: Wait + Copy + Drop>(
    alloc: Global,
    lanes: Vec<QueueLane<R>>,
) -> Result<Vec<AnyLane<S, R>>, NoMemory>
    ensures { IfOk result (λ wrapped. wrapped.items ≡ map spec.queue_lane lanes.items) }
{
    let mut wrapped = Vec::new(alloc);
    for lane in lanes {
        wrapped.push(AnyLane::Queue(lane))?;
    }
    Ok(wrapped)
}

/// The lanes of a queue that all bays share, with these allotments, and its drainer with this sink. All memory is taken here.
pub fn queued_lanes<S: BatchSink + Drop, R: Wait + Copy + Drop, K: Clock + Drop>(
    rt: R,
    alloc: Global,
    capacity: u32,
    allots: Vec<u64>,
    sink: S,
    clock: K,
    limits: Limits,
) -> Result<SinkLanes<S, R, K>, NoMemory>
    requires capacity { 0 < capacity }
    requires lanes { (0 < length allots.items) × (length allots.items ≤ MOST_LANES) }
    requires allotted { All (λ n. n ≤ MOST_ALLOTTED) allots.items }
    requires limits { 0 < limits.lines }
    requires sink { IfSome (S.tells sink).tries (λ tries. tries ≡ [])
        × ((S.tells sink).faults ≡ 0) × ((S.tells sink).refusals ≡ 0) }
    requires clock { IfSome (K.given clock) (λ moments. moments ≡ []) }
    ensures { IfOk result (λ made. spec.AreQueued S.BatchSink K.Clock capacity allots.items limits (S.tells sink) made.lanes.items made.drain) }
{
    let (lanes, outlet) = make_queue(rt, alloc, capacity, allots)?;
    let lanes = wrap_lanes(alloc, lanes)?;
    let drain = QueueDrain::start(alloc, outlet, sink, clock, limits)?;
    Ok(SinkLanes {
        lanes,
        drain: Some(drain),
    })
}
