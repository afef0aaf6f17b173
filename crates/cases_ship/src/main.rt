//! Stored cases of `ship`: lines that are shipped, by public calls alone, and then runs of `apiaggd ship`. Each row of `data/ships.txt` and of
//! `data/runs.txt` is printed with its answer.
//!
//! The expected answers are worked out from the rules that stand above the rows, before the first run.
#![tactic(auto)]

mod peers;
mod runs;
mod ships;

use runs::show_runs;
use ships::show_ships;
use std::process::ExitCode;

fn main(rt: HostRuntime) -> ExitCode {
    match show_ships(&rt) {
        Some(()) if show_runs(&rt, &rt) => ExitCode::from(0),
        _ => ExitCode::from(1),
    }
}
