//! Runs of `serve` over ports in memory, in each of which one call of the outside fails, for each kind of call and each number of
//! it, up to one that isn't reached; and runs whose input is cut after each byte. `case_faults` says what is run and written.
//!
//! In the runs of `interim-faults.txt` backends send interim heads, as many as may come, one more, and a switch of protocols; and the
//! webhook's peer what is no answer. In those of `table-faults.txt` and `bays-faults.txt` clients change the table of APIServices that
//! all bays share, and ask for what they changed: one bay registers an API, is asked for it, deletes it and is asked again; two bays
//! have an API each, and what each finds of it doesn't depend on the turns of threads.
#![tactic(auto)]

use case_faults::run_rows;
use std::io;
use std::process::ExitCode;
use std::sync::Wait;
use std::thread::Threads;

fn run_all<R: Threads + Wait + Copy + Send + Sync + Drop>(
    rt: &HostRuntime,
    threads: &R,
) -> io::Result<()> {
    run_rows(rt, threads, "script.txt", "faults.txt")?;
    run_rows(rt, threads, "interim-script.txt", "interim-faults.txt")?;
    run_rows(rt, threads, "table-script.txt", "table-faults.txt")?;
    run_rows(rt, threads, "bays-script.txt", "bays-faults.txt")
}

fn main(rt: HostRuntime) -> ExitCode {
    match run_all(&rt, &rt) {
        Ok(()) => ExitCode::from(0),
        Err(_) => ExitCode::from(1),
    }
}
