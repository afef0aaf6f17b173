//! Runs bays and drainers in threads, each to its end, and ends the log while the webhook's drainer may still run.
//!
//! The main contract is that of `run_and_end`: each of them does what its own contract says, from what it was given, however threads
//! interleave; and what is left of bays and log is what their end makes of these.
//!
//! Nothing is promised of time, or of two of them running at once.
#![tactic(auto)]

mod run;
#[cfg(test)]
mod tests;

pub use run::run_and_end;
