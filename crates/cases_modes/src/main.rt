//! Whole runs of `serve` over a plant in memory with a log in each mode, alone and beside a webhook in each mode, with tries that fail at told
//! numbers, with buffers that are full, and with clocks that pass the wait of a batch. Each row of `runs.txt` is a run, and all have the
//! requests of `requests.txt`.
//!
//! Of each run its status is printed, the status of each client's reply, the tries of each sink with their lines, the lines that were not
//! taken, and what came of all lines.
//!
//! A buffer of one line may be full at any time. There a run says only what can't depend on turns: that each line was written or not taken.
//! `data/expected.py` worked out from the rules what is printed.
#![tactic(auto)]

mod counts;
mod lines;
mod show;

use case_rows::{is_row, read_cases};
use case_runs::{World, WorldEnd, run_world};
use show::{show_ended, show_sums};
use std::io;
use std::process::ExitCode;
use std::sync::Wait;
use std::thread::Threads;

// The field of that number of a row, from 0.
fn field(row: &str, number: usize) -> &str {
    row.split(" | ").nth(number).unwrap_or("")
}

fn world_of<'a>(requests: &'a str, row: &'a str) -> World<'a> {
    World {
        options: field(row, 1),
        requests,
        allotment: field(row, 2).parse().unwrap_or(0),
        step: field(row, 6).parse().unwrap_or(0),
        log_fails: field(row, 3),
        posts: field(row, 4),
    }
}

fn show_end(rt: &HostRuntime, row: &str, ended: &WorldEnd) -> io::Result<()> {
    if field(row, 5) == "sums" {
        show_sums(rt, ended)
    } else {
        show_ended(rt, ended)
    }
}

fn show_run<R: Threads + Wait + Copy + Send + Sync + Drop>(
    rt: &HostRuntime,
    threads: &R,
    requests: &str,
    row: &str,
) -> io::Result<()> {
    println!(rt; "== {}", field(row, 0))?;
    match run_world(rt, threads, &world_of(requests, row)) {
        Some(ended) => {
            let shown = show_end(rt, row, &ended);
            drop(ended);
            shown
        }
        None => println!(rt; "no run"),
    }
}

fn show_runs<R: Threads + Wait + Copy + Send + Sync + Drop>(
    rt: &HostRuntime,
    threads: &R,
) -> io::Result<()> {
    let requests = read_cases(rt, "requests.txt")?;
    let rows = read_cases(rt, "runs.txt")?;
    for row in rows.lines() {
        if is_row(row) {
            show_run(rt, threads, requests.as_str(), row)?;
        }
    }
    Ok(())
}

fn main(rt: HostRuntime) -> ExitCode {
    match show_runs(&rt, &rt) {
        Ok(()) => ExitCode::from(0),
        Err(_) => ExitCode::from(1),
    }
}
