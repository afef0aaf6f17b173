//! Runs of `serve` over ports in memory, in each of which two calls of the outside fail: each pair of the calls that a short script
//! reaches. `case_faults` says what is run and written.
//!
//! In the runs of `table-faults.txt` and `bays-faults.txt` the clients of one bay, and of two, change the table of APIServices.
#![tactic(auto)]

use case_faults::run_rows;
use std::io;
use std::process::ExitCode;
use std::sync::Wait;
use std::thread::Threads;

fn run_all<R: Threads + Wait + Copy + Send + Sync + Drop>(
    rt: &HostRuntime,
    threads: &R,
) -> io::Result<()> {
    run_rows(rt, threads, "script.txt", "faults.txt")?;
    run_rows(rt, threads, "table-script.txt", "table-faults.txt")?;
    run_rows(rt, threads, "bays-script.txt", "bays-faults.txt")
}

fn main(rt: HostRuntime) -> ExitCode {
    match run_all(&rt, &rt) {
        Ok(()) => ExitCode::from(0),
        Err(_) => ExitCode::from(1),
    }
}
