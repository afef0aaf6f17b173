//! Stored cases of `resources`: the parts of resource lists, and then runs of `apiaggd resources`. Each row of `data/cases.txt` and of
//! `data/runs.txt` is printed, and below it what comes of it.
//!
//! What is wanted was worked out by hand from Kubernetes' type APIResourceList, from the order of discovery and from the shape of a line.
#![tactic(auto)]

mod lists;
mod reasons;
mod runs;
mod servers;

use lists::show_lists;
use runs::show_runs;
use std::process::ExitCode;

fn main(rt: HostRuntime) -> ExitCode {
    match show_lists(&rt) {
        Ok(()) if show_runs(&rt) => ExitCode::from(0),
        _ => ExitCode::from(1),
    }
}
