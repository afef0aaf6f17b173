ghost use Rattle.sink_lanes.specs.Together.{StaysTogether};

use front_ports::Clock;
use shared_queue::{homes_name_their_queue, lanes_keep_their_parts};
use std::sync::Wait;
use truncate_backend::BatchSink;

/// Lanes of one queue and its drainer that were made together can be taken back together, whatever bays have offered to the lanes
/// and the drainer has taken; and each lane is then where its bay is.
pub fn lanes_stay_together<S: BatchSink, R: Wait + Copy + Drop, K: Clock>()
    ensures { StaysTogether S R K S.BatchSink K.Clock }
{
    homes_name_their_queue::<R>();
    lanes_keep_their_parts::<R>();
}
