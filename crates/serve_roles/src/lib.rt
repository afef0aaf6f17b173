//! A bay of a server, as it runs in a thread of its own, and what it leaves.
//!
//! The main contract is that of `BayRole`'s `run`: at its door it does what `bay_runs` says of a bay, from the state that it was
//! given, and its lanes stay those of their queues and sinks. `ReadyBay` is a bay that may serve by the settings that it has.
//! `end_bays` takes bays apart and loses nothing.
//!
//! Nothing is promised of time.
#![tactic(auto)]

mod bay_end;
mod bay_role;
mod door;
mod ending;
mod ready_bay;
mod room;

pub use bay_end::{BayEnd, EndedBays};
pub use bay_role::BayRole;
pub use ending::end_bays;
pub use ready_bay::ReadyBay;
pub use room::EndRoom;
