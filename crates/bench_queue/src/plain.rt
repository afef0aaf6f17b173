// The plain queue, pushed and popped by the same threads.
use crate::ends::{Popper, Pusher};
use crate::popping::PopRole;
use crate::pushing::PushRole;
use crate::timing::{CAPACITY, Figures, Work, run_timed};
use crossbeam_queue::ArrayQueue;
use front_base::Line;
use std::alloc::Global;
use std::rt::Clock;
use std::sync::{Arc, Wait};
use std::thread::Threads;

/// A thread's end of a queue without a rule. It takes lines of any bay.
#[derive(Drop)]
pub struct PlainEnd<R> {
    rt: R,
    queue: Arc<ArrayQueue<Line>>,
    bay: u16,
}

impl<R: Wait> Pusher for PlainEnd<R> {
    ghost bay = { λ e. e.bay };

    fn number(&self) -> u16 {
        self.bay
    }

    fn push(&mut self, line: Line) -> Result<(), Line> {
        self.queue.push(&self.rt, line)
    }
}

impl<R: Wait> Popper for PlainEnd<R> {
    fn pop(&mut self) -> Option<Line> {
        self.queue.pop(&self.rt)
    }
}

/// By so many threads and one that pops, through an `ArrayQueue`.
pub fn plain<R: Threads + Wait + Clock + Copy + Send + Sync + Drop>(
    rt: R,
    alloc: Global,
    work: Work<'_>,
) -> Option<Figures> {
    let queue = Arc::new(alloc, ArrayQueue::new(alloc, CAPACITY as usize).ok()?).ok()?;
    let mut bays = Vec::new(alloc);
    for bay in 0..work.lanes {
        let queue = Arc::try_clone(&queue).ok()?;
        let role = PushRole {
            alloc,
            text: work.text,
            lines: work.lines,
            pusher: PlainEnd { rt, queue, bay },
            pushed: 0,
            refused: 0,
        };
        bays.push(role).ok()?;
    }
    let log = PopRole {
        popper: PlainEnd { rt, queue, bay: 0 },
        popped: 0,
        empties: 0,
    };
    run_timed(&rt, alloc, bays, log)
}
