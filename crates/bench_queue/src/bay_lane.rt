ghost use Rattle.std.specs.Prelude.{◌≡◌};
ghost use Rattle.shared_queue.specs.Lanes.{lane_bay};

use crate::ends::Pusher;
use front_base::Line;
use shared_queue::QueueLane;
use std::sync::Wait;
use truncate_backend::{Lane, Offer};

/// A lane, and the number of its bay.
#[derive(Drop)]
pub struct BayLane<R: Wait + Copy + Drop> {
    pub(crate) lane: QueueLane<R>,
    pub(crate) bay: u16,
    ghost bay_is: { lane_bay lane ≡ bay },
}

impl<R: Wait + Copy + Drop> Pusher for BayLane<R> {
    ghost use Rattle.shared_queue.specs.Lanes.{lane_bay};

    ghost bay = { λ l. lane_bay l.lane };

    fn number(&self) -> u16 {
        self.bay
    }

    fn push(&mut self, line: Line) -> Result<(), Line> {
        match self.lane.offer(line) {
            Offer::Taken => Ok(()),
            Offer::Full(back) | Offer::Failed(back) => Err(back),
        }
    }
}
