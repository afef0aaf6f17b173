//! Stored cases of `check`: the lines of logs, and then runs of `apiaggd check`. Each row of `data/logs.txt` and of `data/runs.txt` is printed, and
//! below it what comes of it.
//!
//! What is wanted was worked out by hand from Kubernetes' page on auditing, from the members of `Event` of `audit.k8s.io/v1` and from the
//! definition of a log that conforms.
#![tactic(auto)]

mod logs;
mod runs;

use logs::show_logs;
use runs::show_runs;
use std::process::ExitCode;

fn main(rt: HostRuntime) -> ExitCode {
    match show_logs(&rt) {
        Ok(()) if show_runs(&rt) => ExitCode::from(0),
        _ => ExitCode::from(1),
    }
}
