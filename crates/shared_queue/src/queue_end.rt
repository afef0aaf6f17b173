ghost use Rattle.std.specs.Prelude.{◌≡◌, true};
ghost use Rattle.std.specs.Arc.{arc_value};
ghost use Rattle.crossbeam_queue.specs.Passes.{view, IsPassOf, ruled_capacity};
ghost use Rattle.shared_queue.specs.Ends.{EndParts, AllEnded, accepts, lefts};

use crate::rule::{EndPop, LineQueue};
use crate::views::View;
use crossbeam_queue::Pass;
use front_base::Line;
use std::sync::{Arc, Wait};
use truncate_backend::Outlet;

/// What is left of a queue whose lanes have all ended. It tells the lines that are left of each bay.
#[derive(Drop)]
pub struct QueueEnd<R: Wait + Copy + Drop> {
    pub(crate) rt: R,
    pub(crate) queue: Arc<LineQueue>,
    pub(crate) pass: Pass<Line, View>,
    pub(crate) empties: u64,
    pub(crate) fulls: u64,
    pub(crate) capacity: u32,
    ghost tied: { IsPassOf (arc_value queue) pass },
    ghost ends: { ((view pass).makes ≡ true) × ((view pass).pops ≡ true) },
    ghost in_order: { AllEnded (view pass) },
    ghost parts: { EndParts (accepts (view pass)) (view pass).taken (lefts (view pass)) capacity },
}

impl<R: Wait + Copy + Drop> QueueEnd<R> {
    ghost use Rattle.shared_queue.specs.Queues.{end_fulls};

    /// How often the lanes of this queue answered Full, all together. It stays at the last value of its type.
    pub fn fulls(&self) -> u64
        ensures { result ≡ end_fulls self.now }
    {
        self.fulls
    }
}

impl<R: Wait + Copy + Drop> Outlet for QueueEnd<R> {
    ghost use Rattle.std.specs.Prelude.{◌≡◌};
    ghost use Rattle.truncate_backend.specs.Outlets.{Popped};
    ghost use Rattle.shared_queue.specs.Queues.{end_tells, end_home, KeepsParts, SameEnd};

    ghost tells = { end_tells };

    ghost home = { end_home };

    /// The oldest line that is left.
    fn pop(&mut self) -> Option<Line>
        ensures same { SameEnd self.old self.new }
        ensures popped { Popped (end_tells self.old) result (end_tells self.new) }
        ensures parts { KeepsParts self.new }
    {
        match self.queue.pop_as::<EndPop, R>(&self.rt, &mut self.pass) {
            Some(line) => Some(line),
            None => {
                self.empties = self.empties.saturating_add(1);
                None
            }
        }
    }
}
