ghost use Rattle.std.specs.Prelude.{◌<◌, IfOk};
ghost use Rattle.bounded_buffer.specs.Ring.{IsNewRing};

use crate::ring_lane::RingLane;
use front_base::NoMemory;
use std::alloc::Global;

/// An empty ring of this capacity, with room for copies of so many lines, and of so many bytes of all of them. It takes all
/// of its memory here.
pub fn ring(alloc: Global, capacity: u32, lines: u32, bytes: u64) -> Result<RingLane, NoMemory>
    requires { 0 < capacity }
    ensures { IfOk result (λ ring. IsNewRing ring capacity lines bytes) }
{
    RingLane::new(alloc, capacity, lines, bytes)
}
