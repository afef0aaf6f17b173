//! Runs bays and drainers in threads, each to its end.
//!
//! The main contract is that of `run_roles`: each of them does what its own contract says, from what it was given, however threads
//! interleave; and all come back, none twice.
//!
//! Nothing is promised of time, or of two of them running at once.
#![tactic(auto)]

mod role;
mod threads;

pub use role::{Role, Roles};
pub use threads::run_roles;
