use crate::lines::{ended_line, refused_line};
use crate::runs::{Run, ready_row, run_ready};
use case_rows::{is_row, read_cases};
use std::alloc::Global;
use std::io;
use std::sync::Wait;
use std::thread::Threads;

// The line of a row's run. None where memory ran out.
fn line_of<R: Threads + Wait + Copy + Send + Sync + Drop>(
    threads: &R,
    alloc: Global,
    script: &str,
    row: &str,
) -> Option<String> {
    let Some(ready) = ready_row(threads, alloc, script, row) else {
        return None;
    };
    match run_ready(threads, alloc, ready) {
        Run::Ended(ended) => ended_line(alloc, row, &ended),
        Run::Uncounted => format!(in alloc; "{row}: changes not counted").ok(),
        Run::Refused(status) => refused_line(alloc, row, status),
    }
}

/// Runs each row of that file over the script of the other one, and writes a line of it.
pub fn run_rows<R: Threads + Wait + Copy + Send + Sync + Drop>(
    rt: &HostRuntime,
    threads: &R,
    script: &str,
    rows: &str,
) -> io::Result<()> {
    let script = read_cases(rt, script)?;
    let rows = read_cases(rt, rows)?;
    for row in rows.lines() {
        if is_row(row) {
            match line_of(threads, rt.alloc(), script.as_str(), row) {
                Some(line) => println!(rt; "{line}")?,
                None => println!(rt; "{row}: no run")?,
            }
        }
    }
    Ok(())
}
