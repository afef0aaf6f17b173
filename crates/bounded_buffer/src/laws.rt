ghost use Rattle.bounded_buffer.specs.Ring.{RingParts};
ghost use Rattle.bounded_buffer.specs.declared.ring_lane.RingLane.{RingLane};

/// What holds of every ring, whoever offered to it and popped from it: what it accepted is what was taken followed by what
/// it holds. It holds at most its capacity, and one that was full had accepted at least so many lines.
pub fn rings_keep_their_parts()
    ensures { (ring : RingLane) → RingParts ring }
{}
