use crate::ends::{Popper, Pusher};
use crate::popping::PopRole;
use crate::pushing::PushRole;
use role_threads::{Roles, run_roles};
use std::alloc::Global;
use std::rt::Clock;
use std::sync::Wait;
use std::thread::Threads;
use std::time::Instant;

/// How many lines a queue holds: the default of `--batch-buffer`.
pub const CAPACITY: u32 = 10_000;

/// What is pushed, how often by each lane, and by how many lanes.
#[derive(Clone, Copy, Drop)]
pub struct Work<'t> {
    pub text: &'t [u8],
    pub lines: u32,
    pub lanes: u16,
}

/// What came of it.
#[derive(Clone, Copy, Drop)]
pub struct Figures {
    pub pushed: u64,
    /// How often the queue refused a line, since it was full.
    pub refused: u64,
    pub popped: u64,
    /// How often the queue had no line for the one that pops.
    pub empties: u64,
    /// From before the threads are made until all have ended.
    pub nanoseconds: u128,
}

// The sums of what the threads counted.
fn figures_of<P, Q>(bays: &[PushRole<'_, P>], log: &PopRole<Q>, nanoseconds: u128) -> Figures {
    let mut pushed = 0u64;
    let mut refused = 0u64;
    for bay in bays {
        pushed = pushed.saturating_add(bay.pushed);
        refused = refused.saturating_add(bay.refused);
    }
    Figures {
        pushed,
        refused,
        popped: log.popped,
        empties: log.empties,
        nanoseconds,
    }
}

/// Runs each that pushes and the one that pops in a thread of its own, to their end.
pub fn run_timed<
    't,
    R: Threads + Wait + Clock + Sync,
    P: Pusher + Drop + Send,
    Q: Popper + Drop + Send,
>(rt: &R, alloc: Global, bays: Vec<PushRole<'t, P>>, log: PopRole<Q>) -> Option<Figures> {
    let hook: Option<PopRole<Q>> = None;
    let log = Some(log);
    let start = Instant::now(rt).ok()?;
    let ran = run_roles(rt, alloc, Roles { bays, log, hook }).ok()?;
    let nanoseconds = start.elapsed(rt).ok()?.as_nanos();
    let Roles { bays, log, hook: _ } = ran;
    Some(figures_of(bays.as_slice(), &log?, nanoseconds))
}
