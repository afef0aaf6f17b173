ghost use Rattle.std.specs.Prelude.{◌≡◌, ◌≤◌, [], IfOk, vec_capacity};

use front_base::NoMemory;
use shared_queue::QueueLane;
use std::alloc::Global;
use std::sync::Wait;

/// The memory that taking lanes back needs, so that no line is lost for want of it afterwards.
#[derive(Drop)]
pub struct SinkRoom<S, R: Wait + Copy + Drop> {
    pub(crate) bays: usize,
    pub(crate) queued: Vec<QueueLane<R>>,
    pub(crate) own: Vec<S>,
    ghost none: { (queued.items ≡ []) × (own.items ≡ []) },
    ghost room: { (bays ≤ vec_capacity queued) × (bays ≤ vec_capacity own) },
}

impl<S: Drop, R: Wait + Copy + Drop> SinkRoom<S, R> {
    ghost use Rattle.sink_lanes.specs.Rooms.{room_for};

    /// Room for the lanes of so many bays.
    pub fn new(alloc: Global, bays: usize) -> Result<SinkRoom<S, R>, NoMemory>
        ensures { IfOk result (λ room. room_for room ≡ bays) }
    {
        Ok(SinkRoom {
            bays,
            queued: Vec::with_capacity(alloc, bays)?,
            own: Vec::with_capacity(alloc, bays)?,
        })
    }
}
