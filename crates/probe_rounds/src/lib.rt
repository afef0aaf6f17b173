//! Rounds of probes: each service is asked, and a front door is told of each condition that changes.
//!
//! The main contract is that of `run_rounds`: the calls of the dial and the lines written are those of the definition `probe_run`, for
//! the answers of these calls and the moments that the clock gave; the clock rests once after each moment but the last round's; and the
//! answer is whether what was told of some row last wasn't taken. All rounds are made, or a port says that they don't go on. Where memory
//! runs out or a write fails, calls and lines are a prefix of it.
//!
//! Nothing is promised of how long a rest is.
#![tactic(auto)]

mod going;
mod line;
mod pace;
mod plan;
mod round;
mod rounds;
mod stop;
mod turn;

pub use going::{GoesFor, Going};
pub use pace::Pace;
pub use plan::ProbePlan;
pub use round::Round;
pub use rounds::run_rounds;
pub use stop::ProbeStop;
