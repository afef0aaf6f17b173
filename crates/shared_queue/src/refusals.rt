ghost use Rattle.std.specs.Prelude.{◌≡◌, MatchResult};
ghost use Rattle.crossbeam_queue.specs.Fifo.{Pushes, Learns, Held};
ghost use Rattle.crossbeam_queue.specs.Passes.{view, IsSamePass, IsPassOf, ruled_capacity};
ghost use Rattle.truncate_backend.specs.Told.{RisesByOne};
ghost use Rattle.shared_queue.specs.Rule.{Kept};

use crate::rule::LineQueue;
use crate::views::View;
use crossbeam_queue::Pass;
use crossbeam_queue::protocol::{Lesson, Outcome};
use front_base::Line;
use std::sync::Wait;

/// How often a queue refused a push of one lane. Nothing but `push` raises it. It stays at the last value of its type.
#[derive(Drop)]
pub struct Refusals {
    // Private to this file, so that a lane can't count a refusal that its queue didn't make.
    count: u64,
}

impl Refusals {
    pub(crate) fn none() -> Refusals
        ensures { result.count ≡ 0 }
    {
        Refusals { count: 0 }
    }

    pub(crate) fn count(&self) -> u64
        ensures { result ≡ self.now.count }
    {
        self.count
    }

    /// One push. The queue refuses it only where it held its capacity at one moment of the call. Whatever the rule tells of what it
    /// held then is known.
    pub(crate) fn push<M: Outcome<Line, View> + Lesson<Line, View>, R: Wait>(
        &mut self,
        rt: &R,
        queue: &LineQueue,
        pass: &mut Pass<Line, View>,
        line: Line,
    ) -> Result<(), Line>
        requires queue { IsPassOf queue.now pass.old }
        requires rule { Pushes Kept (ruled_capacity queue.now) pass.old.id (view pass.old) line (M.then (view pass.old) line)
            × Learns Kept pass.old.id (view pass.old) (M.fact (view pass.old)) }
        ensures queue { IsSamePass pass.old pass.new }
        ensures result { MatchResult result
            (λ _. M.then (view pass.old) line (view pass.new) × (self.new.count ≡ self.old.count))
            (λ x. (x ≡ line) × (view pass.new ≡ view pass.old) × RisesByOne self.old.count self.new.count
            × Held (ruled_capacity queue.now) (M.fact (view pass.old))) }
    {
        match queue.push_as::<M, R>(rt, pass, line) {
            Ok(()) => Ok(()),
            Err(back) => {
                self.count = self.count.saturating_add(1);
                Err(back)
            }
        }
    }
}
