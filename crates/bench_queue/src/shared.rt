// The audit queue that bays share.
ghost use Rattle.std.specs.Prelude.{◌≡◌, ◌≤◌, ℕ, All, IfOk, IfSome, length, slice_get};
ghost use Rattle.shared_queue.specs.Lanes.{lane_bay};
ghost use Rattle.shared_queue.specs.declared.making.TheConstants.{MOST_ALLOTTED, MOST_LANES};

use crate::bay_lane::BayLane;
use crate::ends::Popper;
use crate::popping::PopRole;
use crate::pushing::PushRole;
use crate::timing::{CAPACITY, Figures, Work, run_timed};
use front_base::{Line, NoMemory};
use shared_queue::{MOST_LANES, QueueLane, QueueOutlet, make_queue};
use std::alloc::Global;
use std::rt::Clock;
use std::sync::Wait;
use std::thread::Threads;
use truncate_backend::Outlet;

impl<R: Wait + Copy + Drop> Popper for QueueOutlet<R> {
    fn pop(&mut self) -> Option<Line> {
        Outlet::pop(self)
    }
}

// The lanes of a queue, each for a thread.
fn roles_of<'t, R: Wait + Copy + Drop>(
    alloc: Global,
    work: Work<'t>,
    lanes: Vec<QueueLane<R>>,
) -> Result<Vec<PushRole<'t, BayLane<R>>>, NoMemory>
    requires few { length lanes.items ≤ MOST_LANES }
    requires bays { (bay : ℕ) → IfSome (slice_get lanes.items bay) (λ lane. lane_bay lane ≡ bay) }
{
    let mut roles = Vec::new(alloc);
    let mut bay = 0u16;
    for lane in lanes {
        let pusher = BayLane { lane, bay };
        roles.push(PushRole {
            alloc,
            text: work.text,
            lines: work.lines,
            pusher,
            pushed: 0,
            refused: 0,
        })?;
        bay = bay.saturating_add(1);
    }
    Ok(roles)
}

// How many lines each lane may push.
fn allotments(alloc: Global, lines: u32, lanes: u16) -> Result<Vec<u64>, NoMemory>
    ensures count { IfOk result (λ allots. length allots.items ≡ lanes) }
    ensures most { IfOk result (λ allots. All (λ n. n ≤ MOST_ALLOTTED) allots.items) }
{
    Ok(vec![in alloc; u64::from(lines); usize::from(lanes)]?)
}

/// By so many lanes and one outlet. None where it didn't come to its end.
pub fn shared<R: Threads + Wait + Clock + Copy + Send + Sync + Drop>(
    rt: R,
    alloc: Global,
    work: Work<'_>,
) -> Option<Figures> {
    if work.lanes == 0 || usize::from(work.lanes) > MOST_LANES {
        return None;
    }
    let allots = allotments(alloc, work.lines, work.lanes).ok()?;
    let (lanes, popper) = make_queue(rt, alloc, CAPACITY, allots).ok()?;
    let bays = roles_of(alloc, work, lanes).ok()?;
    let log = PopRole {
        popper,
        popped: 0,
        empties: 0,
    };
    run_timed(&rt, alloc, bays, log)
}
