//! Where lines wait between the connection threads of many bays and one drainer.
//!
//! `make_queue` gives one bounded queue with a lane for each bay and one outlet. The main contract is that of `finish`, which
//! takes them all back: each bay's accepted lines are its lines among those that were taken, in order and each once, and then
//! those that are left of it. There are no other lines, and at most the capacity is left. A lane accepts at most its
//! allotment. `lanes_keep_their_parts` says of every lane that was Full that its allotment is spent, or that the capacity is at
//! most its accepted lines and the other lanes' allotments together.
//!
//! Nothing is promised of order between bays, of how long a line waits, or of when a push or a pop returns. A lane doesn't
//! try again: where the queue has no room, its line is handed back.
#![tactic(auto)]

mod finishing;
mod lane;
mod laws;
mod making;
mod outlet;
mod queue_end;
mod refusals;
mod rule;
mod views;

pub use finishing::finish;
pub use lane::QueueLane;
pub use laws::{
    ends_keep_their_parts, homes_name_their_queue, lanes_keep_their_parts, pops_keep_the_parts,
};
pub use making::{MOST_ALLOTTED, MOST_LANES, make_queue};
pub use outlet::QueueOutlet;
pub use queue_end::QueueEnd;
