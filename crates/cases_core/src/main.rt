//! One exchange as values, over the cases of this folder's `data`, a case a line: how a request is recorded and answered, with
//! the lines of its events. Each row is printed, and below it all that came of it.
//!
//! Stages and levels are those of Kubernetes' page on auditing, and lines those of `Event` of `audit.k8s.io/v1`, worked out by
//! hand.
#![tactic(auto)]

mod fixtures;
mod settled;

use case_rows::{is_row, read_cases};
use settled::show_settled;
use std::io;
use std::process::ExitCode;

fn show_row(rt: &HostRuntime, row: &str) -> io::Result<()> {
    println!(rt; "{row}")?;
    show_settled(rt, row)
}

fn show_rows(rt: &HostRuntime, text: &str) -> io::Result<()> {
    println!(rt; "== settled.txt")?;
    for row in text.lines() {
        if is_row(row) {
            show_row(rt, row)?;
        }
    }
    Ok(())
}

fn show_file(rt: &HostRuntime) -> io::Result<()> {
    let text = read_cases(rt, "settled.txt")?;
    show_rows(rt, text.as_str())
}

fn main(rt: HostRuntime) -> ExitCode {
    match show_file(&rt) {
        Ok(()) => ExitCode::from(0),
        Err(_) => ExitCode::from(1),
    }
}
