//! The command `probe`: the services of APIServices are probed, and a front door is told whether they are available.
//!
//! The main contract is that of `run_probe`: how it ends, which calls the dial got, with which bytes and in which order, and which lines
//! were written. The definition to read is `Run`, and below it `probe_rounds`' `probe_run`. The APIServices are those of a file, or those of
//! the list that the first call asks the front door for.
//!
//! `read_probe` answers what the words ask for, as the definition `probe_command` states it, or the first refusal. Its numbers are in the ranges of
//! their options.
//!
//! Nothing is promised of what a real file holds, what answers at an address, nor of time.
#![tactic(auto)]

mod config;
mod ended;
mod fault;
mod listing;
mod numbers;
mod probe;
mod refused;
mod run;
mod token;

pub use config::{ProbeConfig, configure_probe};
pub use ended::ProbeEnded;
pub use fault::ProbeFault;
pub use listing::{ListFault, list_fault_text};
pub use probe::{ProbeWords, read_probe};
pub use refused::probe_outcome;
pub use run::run_probe;
