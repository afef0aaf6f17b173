// What is counted of a run.
use bay_runs::EndCounts;
use serve_runs::{Ended, RunStatus};

#[derive(Debug, Drop, PartialEq, Eq)]
pub struct Counted {
    pub status: RunStatus,
    pub requests: u64,
    /// How many connections ended well.
    pub ended: u64,
    /// How many lines the webhook's drainer wrote, and lost.
    pub written: u64,
    pub lost: u64,
}

fn ends_in(counts: &EndCounts) -> u64 {
    counts.ended.saturating_add(counts.asked)
}

pub fn figures_of<R: Drop, L: Drop, W: Drop, H: Drop, K: Drop, Y: Drop, D: Drop>(
    ended: Ended<R, L, W, H, K, Y, D>,
) -> Counted {
    let mut figures = Counted {
        status: ended.status,
        requests: 0,
        ended: 0,
        written: 0,
        lost: 0,
    };
    if let Some(drain) = &ended.hook.drain {
        figures.written = drain.written;
        figures.lost = drain.lost;
    }
    for bay in ended.bays.as_slice() {
        figures.requests = figures.requests.saturating_add(bay.number);
        figures.ended = figures.ended.saturating_add(ends_in(&bay.counts));
    }
    figures
}
