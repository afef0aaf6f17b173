//! What is sent of one exchange, over the cases of this folder's `data`, a case a line: what becomes of an event that a log is
//! offered; what a client gets of a backend's reply; and refusals. Each row is printed, and below it all that came of it.
//!
//! Lines are those of `Event` of `audit.k8s.io/v1`, and replies those of RFC 9110 and RFC 9112, worked out by hand.
#![tactic(auto)]

mod fixtures;
mod offered;
mod replied;

use case_rows::{is_row, read_cases};
use offered::show_offered;
use replied::{show_refusal, show_replied};
use std::io;
use std::process::ExitCode;

// The files of cases, in the order in which they are shown.
const FILES: [&str; 3] = ["offered.txt", "replied.txt", "refusals.txt"];

fn show_row(rt: &HostRuntime, name: &str, row: &str) -> io::Result<()> {
    println!(rt; "{row}")?;
    match name {
        "offered.txt" => show_offered(rt, row),
        "replied.txt" => show_replied(rt, row),
        _ => show_refusal(rt, row),
    }
}

fn show_rows(rt: &HostRuntime, name: &str, text: &str) -> io::Result<()> {
    println!(rt; "== {name}")?;
    for row in text.lines() {
        if is_row(row) {
            show_row(rt, name, row)?;
        }
    }
    Ok(())
}

fn show_file(rt: &HostRuntime, name: &str) -> io::Result<()> {
    let text = read_cases(rt, name)?;
    show_rows(rt, name, text.as_str())
}

fn show_files(rt: &HostRuntime) -> io::Result<()> {
    for name in FILES {
        show_file(rt, name)?;
    }
    Ok(())
}

fn main(rt: HostRuntime) -> ExitCode {
    match show_files(&rt) {
        Ok(()) => ExitCode::from(0),
        Err(_) => ExitCode::from(1),
    }
}
