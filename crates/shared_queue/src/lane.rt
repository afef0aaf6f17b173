ghost use Rattle.std.specs.Prelude.{◌≡◌, ◌<◌, ◌≤◌, ◌+◌, true, length, get_or, sum};
ghost use Rattle.std.specs.Arc.{arc_value};
ghost use Rattle.crossbeam_queue.specs.Passes.{view, IsPassOf, ruled_capacity};

use crate::refusals::Refusals;
use crate::rule::{LanePush, LineQueue};
use crate::views::View;
use crossbeam_queue::Pass;
use front_base::Line;
use std::sync::{Arc, Wait};
use truncate_backend::{Lane, Offer};

/// One bay's end of a queue that several bays push to.
///
/// It accepts at most its allotment of lines. Where the queue has no room the line is handed back, and isn't tried again.
#[derive(Drop)]
pub struct QueueLane<R: Wait + Copy + Drop> {
    pub(crate) rt: R,
    pub(crate) queue: Arc<LineQueue>,
    pub(crate) pass: Pass<Line, View>,
    pub(crate) bay: u16,
    // How many offers came after the allotment was spent, up to the last value of the type, and how many pushes the queue refused.
    pub(crate) beyond: u64,
    pub(crate) refusals: Refusals,
    pub(crate) capacity: u32,
    pub(crate) allotment: u64,
    // How many lines it accepted.
    pub(crate) count: u64,
    ghost tied: { IsPassOf (arc_value queue) pass },
    ghost pushes: { (view pass).pushes ≡ true },
    ghost bay_is: { (view pass).bay ≡ bay },
    ghost capacity_is: { capacity ≡ ruled_capacity (arc_value queue) },
    ghost allotment_is: { get_or (view pass).allotments (view pass).bay 0 ≡ allotment },
    ghost count_is: { (count ≡ length (view pass).accepted) × (count ≤ allotment) },
    ghost beyond_is: { 0 < beyond → count ≡ allotment },
    ghost crowded: { 0 < refusals.count → capacity + allotment ≤ length (view pass).accepted + sum (view pass).allotments },
}

impl<R: Wait + Copy + Drop> QueueLane<R> {
    ghost use Rattle.std.specs.Prelude.{MatchResult};
    ghost use Rattle.truncate_backend.specs.Told.{RisesByOne};
    ghost use Rattle.shared_queue.specs.Rule.{pushed};
    ghost use Rattle.shared_queue.specs.Lanes.{SameLane, WasFull, lane_beyond, lane_refused};

    // A push, where the allotment has room for the line.
    fn push(&mut self, line: Line) -> Result<(), Line>
        requires line { line.bay ≡ self.old.bay }
        requires room { self.old.count < self.old.allotment }
        ensures same { SameLane self.old self.new }
        ensures result { MatchResult result
            (λ _. (view self.new.pass ≡ pushed (view self.old.pass) line) × (lane_refused self.new ≡ lane_refused self.old))
            (λ x. (x ≡ line) × (view self.new.pass ≡ view self.old.pass)
            × RisesByOne (lane_refused self.old) (lane_refused self.new) × WasFull self.old) }
        ensures beyond { lane_beyond self.new ≡ lane_beyond self.old }
    {
        match self
            .refusals
            .push::<LanePush, R>(&self.rt, &self.queue, &mut self.pass, line)
        {
            Ok(()) => {
                self.count += 1;
                Ok(())
            }
            Err(back) => Err(back),
        }
    }
}

impl<R: Wait + Copy + Drop> Lane for QueueLane<R> {
    ghost use Rattle.std.specs.Prelude.{◌≡◌, Some, true};
    ghost use Rattle.truncate_backend.specs.Lanes.{Offered};
    ghost use Rattle.shared_queue.specs.Lanes.{SameLane, LaneOffered, lane_tells, lane_bay, lane_home};

    ghost tells = { lane_tells };

    ghost bay = { λ l. Some (lane_bay l) };

    ghost home = { lane_home };

    ghost queued = { λ _. true };

    /// Full without a push where its allotment is spent. Otherwise it makes one push, and is Full where the queue refuses it.
    fn offer(&mut self, line: Line) -> Offer
        requires { line.bay ≡ lane_bay self.old }
        ensures same { SameLane self.old self.new }
        ensures offered { Offered (lane_tells self.old) line true result (lane_tells self.new) }
        ensures exact { LaneOffered self.old line result self.new }
    {
        if self.count >= self.allotment {
            self.beyond = self.beyond.saturating_add(1);
            return Offer::Full(line);
        }
        match self.push(line) {
            Ok(()) => Offer::Taken,
            Err(line) => Offer::Full(line),
        }
    }
}
