//! Stored cases of `probe`: rounds of probes, by public calls alone (which services are asked, when a front door is told, and what is written), and
//! then runs of `apiaggd probe`.
//!
//! Each row of a file of rows of `data/` is printed with its answer. The expected answers are worked out from the rules that stand above the rows.
#![tactic(auto)]

mod objects;
mod peers;
mod rounds;
mod runs;

use case_rows::{is_row, read_cases};
use objects::show_object;
use rounds::{show_calls, show_lines};
use runs::show_runs;
use std::alloc::Global;
use std::process::ExitCode;

const MATTERS: &str = "\
lines.txt
calls.txt
objects.txt
";

fn show(alloc: Global, matter: &str, row: &str) -> Option<String> {
    match matter {
        "lines.txt" => show_lines(alloc, row),
        "calls.txt" => show_calls(alloc, row),
        _ => show_object(alloc, row),
    }
}

fn print_cases(rt: &HostRuntime, matter: &str) -> Option<()> {
    let text = read_cases(rt, matter).ok()?;
    for row in text.lines() {
        if is_row(row) {
            let answer = show(rt.alloc(), matter, row)?;
            print!(rt; "{row} => {answer}\n").ok()?;
        }
    }
    Some(())
}

fn print_all(rt: &HostRuntime) -> Option<()> {
    for matter in MATTERS.lines() {
        print_cases(rt, matter)?;
    }
    Some(())
}

fn main(rt: HostRuntime) -> ExitCode {
    match print_all(&rt) {
        Some(()) if show_runs(&rt) => ExitCode::from(0),
        _ => ExitCode::from(1),
    }
}
