//! Pairs of runs of `serve` over a plant in memory: one bay, a log that is written to at once, a webhook in batches, and clocks
//! that stand still. Each run reads its requests, and the replies of its backends, from a file of this folder's `data`, and both runs
//! of a pair have one policy. What the log and the webhook were sent in the first run is printed, and of the second run what differs.
//!
//! The pairs show from outside what the laws of `alike_runs` say: bodies and values of secrets below the recorded level, and managed fields
//! that the policy omits, leave both sinks the same bytes, and what the level records doesn't. `data/expected.py` of `cases_modes` worked out
//! from the rules what is printed.
#![tactic(auto)]

mod run;

use case_rows::{is_row, read_cases};
use run::{Sent, run_file};
use std::io;
use std::process::ExitCode;
use std::sync::Wait;
use std::thread::Threads;

// The field of that number of a row, from 0.
fn field(row: &str, number: usize) -> &str {
    row.split(" | ").nth(number).unwrap_or("")
}

fn show_sent(rt: &HostRuntime, name: &str, sent: &Sent) -> io::Result<()> {
    println!(rt; "-- {name}")?;
    print!(rt; "{}", sent.log)?;
    print!(rt; "{}", sent.posts)
}

fn show_text(rt: &HostRuntime, sink: &str, first: &str, second: &str) -> io::Result<()> {
    if first == second {
        println!(rt; "the same bytes to the {sink}")
    } else {
        println!(rt; "other bytes to the {sink}:")?;
        print!(rt; "{second}")
    }
}

fn show_other(rt: &HostRuntime, name: &str, first: &Sent, second: &Sent) -> io::Result<()> {
    println!(rt; "-- {name}")?;
    show_text(rt, "log", first.log.as_str(), second.log.as_str())?;
    show_text(rt, "webhook", first.posts.as_str(), second.posts.as_str())
}

fn show_both(rt: &HostRuntime, row: &str, first: &Sent, second: &Sent) -> io::Result<()> {
    show_sent(rt, field(row, 1), first)?;
    show_other(rt, field(row, 2), first, second)
}

fn show_pair<R: Threads + Wait + Copy + Send + Sync + Drop>(
    rt: &HostRuntime,
    threads: &R,
    row: &str,
) -> io::Result<()> {
    println!(rt; "== {}", field(row, 0))?;
    let first = run_file(rt, threads, field(row, 1), field(row, 3));
    let second = run_file(rt, threads, field(row, 2), field(row, 3));
    match (first, second) {
        (Some(first), Some(second)) => show_both(rt, row, &first, &second),
        _ => println!(rt; "no run"),
    }
}

fn show_pairs<R: Threads + Wait + Copy + Send + Sync + Drop>(
    rt: &HostRuntime,
    threads: &R,
) -> io::Result<()> {
    let text = read_cases(rt, "pairs.txt")?;
    for row in text.lines() {
        if is_row(row) {
            show_pair(rt, threads, row)?;
        }
    }
    Ok(())
}

fn main(rt: HostRuntime) -> ExitCode {
    match show_pairs(&rt, &rt) {
        Ok(()) => ExitCode::from(0),
        Err(_) => ExitCode::from(1),
    }
}
