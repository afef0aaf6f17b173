ghost use Rattle.std.specs.Prelude.{◌≡◌, [], true, false, length};
ghost use Rattle.std.specs.Arc.{arc_value};
ghost use Rattle.crossbeam_queue.specs.Passes.{view, IsPassOf, ruled_capacity};

use crate::rule::{LineQueue, OutletPop};
use crate::views::View;
use crossbeam_queue::Pass;
use front_base::Line;
use std::sync::{Arc, Wait};
use truncate_backend::Outlet;

/// The drainer's end of a queue that several bays push to. It tells what it took, and not what is left, since others push.
#[derive(Drop)]
pub struct QueueOutlet<R: Wait + Copy + Drop> {
    pub(crate) rt: R,
    pub(crate) queue: Arc<LineQueue>,
    pub(crate) pass: Pass<Line, View>,
    // It made the lanes, and takes them back at the end.
    pub(crate) maker: Pass<Line, View>,
    pub(crate) empties: u64,
    pub(crate) capacity: u32,
    ghost tied: { IsPassOf (arc_value queue) pass },
    ghost maker_tied: { IsPassOf (arc_value queue) maker },
    ghost pops: { ((view pass).pops ≡ true) × ((view pass).pushes ≡ false) × ((view pass).makes ≡ false) },
    ghost makes: { ((view maker).makes ≡ true) × ((view maker).pushes ≡ false) × ((view maker).ended ≡ []) },
    ghost capacity_is: { capacity ≡ ruled_capacity (arc_value queue) },
    ghost allotments_are: { (view pass).allotments ≡ (view maker).allotments },
    ghost made_is: { (view maker).made ≡ length (view maker).allotments },
}

impl<R: Wait + Copy + Drop> Outlet for QueueOutlet<R> {
    ghost use Rattle.std.specs.Prelude.{◌≡◌};
    ghost use Rattle.truncate_backend.specs.Outlets.{Popped};
    ghost use Rattle.shared_queue.specs.Queues.{outlet_tells, outlet_home};

    ghost tells = { outlet_tells };

    ghost home = { outlet_home };

    /// The oldest line. `None` only where the queue was empty at one moment of the call.
    fn pop(&mut self) -> Option<Line>
        ensures fixed { outlet_home self.new ≡ outlet_home self.old }
        ensures popped { Popped (outlet_tells self.old) result (outlet_tells self.new) }
    {
        match self.queue.pop_as::<OutletPop, R>(&self.rt, &mut self.pass) {
            Some(line) => Some(line),
            None => {
                self.empties = self.empties.saturating_add(1);
                None
            }
        }
    }
}
