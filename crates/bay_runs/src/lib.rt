//! One bay at its door: each connection that the door gives is served and handed back, one after another, and its end is
//! counted.
//!
//! The main contract is that of `run_bay`. `specs/Runs.antt` says that each connection was served as `session_core` says of
//! one, from the state that the one before left, which connections the door gave and what it notes of them, and why the bay
//! stopped. `specs/Counts.antt` says how ends are counted.
//!
//! Nothing is promised of time: `run_bay` waits as long as its door does.
#![tactic(auto)]

mod bay_stop;
mod end_counts;
mod run;

pub use bay_stop::BayStop;
pub use end_counts::EndCounts;
pub use run::run_bay;
