use crate::ends::Popper;
use role_threads::Role;
use std::sync::Wait;
use std::sync::atomic::{AtomicUsize, Ordering};
use std::thread;

/// Pops until all who push have ended and no line is there.
#[derive(Drop)]
pub struct PopRole<P> {
    pub popper: P,
    /// How many lines it took, and how often there was none.
    pub popped: u64,
    pub empties: u64,
}

impl<P: Popper, T: Wait> Role<T> for PopRole<P> {
    ghost use Rattle.std.specs.Prelude.{⊤};

    ghost ran = { λ _ _. ⊤ };

    fn run(&mut self, rt: &T, ended: &AtomicUsize, bays: usize) {
        for _ in rt.forever() {
            // Counted before the pop: a line of the last one that ended is there then.
            let last = ended.load(Ordering::SeqCst) >= bays;
            if self.popper.pop().is_some() {
                self.popped = self.popped.saturating_add(1);
                continue;
            }
            if last {
                return;
            }
            self.empties = self.empties.saturating_add(1);
            thread::yield_now();
        }
    }
}
