//! A whole run of a server over a plant: bays and drainers are made of its handles, run in threads until every bay has stopped, and
//! taken apart; what was accepted is put before it ends.
//!
//! The main contract is that of `run_serve`. However threads interleave, each bay serves from its beginning the connections that were
//! due to it, and what it offers is what its diary has; each line that a queue accepted stands in one try of its sink, in its bay's
//! order; Full comes only where a bay's allotment is spent or the queue can be full; and the status is told by why bays stopped.
//!
//! Nothing is promised of time, or of two bays running at once.
#![tactic(auto)]

mod ended;
mod ending;
mod laws;
mod roles;
mod run;
mod running;
mod status;

pub use ended::{Ended, RunStatus};
pub use laws::no_calls_yet;
pub use run::{nothing_ran, run_serve};
