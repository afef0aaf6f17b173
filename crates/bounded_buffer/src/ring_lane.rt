ghost use Rattle.std.specs.Prelude.{◌≡◌, ◌<◌, ◌≤◌, ◌-◌, true, IfOk, length, drop};
ghost use Rattle.std.specs.VecDeque.{deque_capacity};

use front_base::{Line, NoMemory};
use std::alloc::Global;
use std::collections::VecDeque;
use truncate_backend::{Lane, LineCopies, Offer, Outlet};

/// A queue of at most so many lines, on one thread: who offers and who pops have it in turn.
///
/// It keeps copies of the lines that it accepted while these fit into the room that was reserved for them. So long it
/// tells the lines that it accepted and those that were taken.
#[derive(Drop)]
pub struct RingLane {
    capacity: usize,
    queue: VecDeque<Line>,
    copies: LineCopies,
    told: bool,
    fulls: u64,
    empties: u64,
    ghost within: { length queue.items ≤ capacity },
    ghost reserved: { capacity ≤ deque_capacity queue },
    ghost held: { told ≡ true → length queue.items ≤ length copies.lines },
    ghost parts: { told ≡ true → drop (length copies.lines - length queue.items) copies.lines ≡ queue.items },
    ghost crowded: { told ≡ true → 0 < fulls → capacity ≤ length copies.lines },
}

impl RingLane {
    ghost use Rattle.bounded_buffer.specs.Ring.{IsNewRing};

    pub(crate) fn new(
        alloc: Global,
        capacity: u32,
        lines: u32,
        bytes: u64,
    ) -> Result<RingLane, NoMemory>
        requires { 0 < capacity }
        ensures { IfOk result (λ ring. IsNewRing ring capacity lines bytes) }
    {
        let capacity = capacity as usize;
        Ok(RingLane {
            capacity,
            queue: VecDeque::with_capacity(alloc, capacity)?,
            copies: LineCopies::new(alloc, lines as usize, bytes as usize)?,
            told: true,
            fulls: 0,
            empties: 0,
        })
    }
}

impl Lane for RingLane {
    ghost use Rattle.std.specs.Prelude.{None, [], true};
    ghost use Rattle.truncate_backend.specs.Lanes.{Offered};
    ghost use Rattle.bounded_buffer.specs.Ring.{ring_lane, RingOffered, SameRoom};

    ghost tells = { ring_lane };

    ghost bay = { λ _. None };

    ghost home = { λ _. [] };

    ghost queued = { λ _. true };

    /// Full exactly where it holds its capacity.
    fn offer(&mut self, line: Line) -> Offer
        ensures offered { Offered (ring_lane self.old) line true result (ring_lane self.new) }
        ensures exact { RingOffered self.old line result self.new }
        ensures room { SameRoom self.old self.new }
    {
        if self.queue.len() >= self.capacity {
            self.fulls = self.fulls.saturating_add(1);
            return Offer::Full(line);
        }
        if self.told {
            if self.copies.fits(std::slice::from_ref(&line)) {
                self.copies.copy(&line);
            } else {
                self.told = false;
            }
        }
        self.queue.push_back_reserved(line);
        Offer::Taken
    }
}

impl Outlet for RingLane {
    ghost use Rattle.std.specs.Prelude.{◌≡◌, []};
    ghost use Rattle.truncate_backend.specs.Outlets.{Popped};
    ghost use Rattle.bounded_buffer.specs.Ring.{ring_outlet, ring_is_told, SameRoom};

    ghost tells = { ring_outlet };

    ghost home = { λ _. [] };

    /// The line that waited longest.
    fn pop(&mut self) -> Option<Line>
        ensures popped { Popped (ring_outlet self.old) result (ring_outlet self.new) }
        ensures told { ring_is_told self.new ≡ ring_is_told self.old }
        ensures room { SameRoom self.old self.new }
    {
        match self.queue.pop_front() {
            Some(line) => Some(line),
            None => {
                self.empties = self.empties.saturating_add(1);
                None
            }
        }
    }
}
