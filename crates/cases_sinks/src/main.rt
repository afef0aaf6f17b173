//! Cases of what stands between events and their files: the buffer of one bay, the queue that bays share, the log and batches, by public
//! calls alone.
//!
//! Each file of `data` holds rows, and says what they show. Each row is printed with its answer. The expected answers are worked out by
//! hand from the rule that stands above the rows.
#![tactic(auto)]

mod batches;
mod logs;
mod queues;
mod rings;
mod words;

use batches::{show_flush, show_pumps};
use case_rows::{is_row, read_cases};
use logs::{show_log, show_own};
use queues::{show_end, show_queue, show_threads};
use rings::show_ring;
use std::alloc::Global;
use std::process::ExitCode;
use std::sync::Wait;
use std::thread::Threads;

const FILES: &str = "\
rings.txt
queues.txt
logs.txt
own.txt
pumps.txt
flushes.txt
";

// Writes the answer of a row after what is there.
fn show<R: Wait + Copy + Drop>(
    threads: R,
    alloc: Global,
    out: &mut String,
    file: &str,
    row: &str,
) -> Option<()> {
    match file {
        "rings.txt" => show_ring(alloc, out, row),
        "queues.txt" => show_queue(threads, alloc, out, row).ok()?,
        "logs.txt" => show_log(alloc, out, row),
        "own.txt" => show_own(alloc, out, row),
        "pumps.txt" => show_pumps(alloc, out, row),
        _ => show_flush(alloc, out, row),
    }
    Some(())
}

// Prints a row with its answer.
fn print_case<R: Wait + Copy + Drop>(
    rt: &HostRuntime,
    threads: R,
    file: &str,
    row: &str,
) -> Option<()> {
    let mut answer = String::new(rt.alloc());
    show(threads, rt.alloc(), &mut answer, file, row)?;
    print!(rt; "{row} => {answer}\n").ok()
}

fn print_cases<R: Wait + Copy + Drop>(
    rt: &HostRuntime,
    threads: R,
    file: &str,
    text: &str,
) -> Option<()> {
    print!(rt; "== {file}\n").ok()?;
    for line in text.lines() {
        if is_row(line) {
            print_case(rt, threads, file, line)?;
        }
    }
    Some(())
}

fn print_files<R: Wait + Copy + Drop>(rt: &HostRuntime, threads: R) -> Option<()> {
    for file in FILES.lines() {
        let text = read_cases(rt, file).ok()?;
        print_cases(rt, threads, file, text.as_str())?;
    }
    Some(())
}

// An end of a queue, and lines of three threads.
fn print_ends<R: Wait + Threads + Copy + Drop + Send + Sync + 'static>(
    rt: &HostRuntime,
    threads: R,
) -> Option<()> {
    let mut answer = String::new(rt.alloc());
    show_end(threads, rt.alloc(), &mut answer)?;
    print!(rt; "== ends\nfirst second third, end, pop pop pop => {answer}\n").ok()?;
    let came = show_threads(threads, rt.alloc());
    print!(rt; "== threads\n3 threads with 200 lines each => {came:?}\n").ok()
}

fn main(rt: HostRuntime) -> ExitCode {
    match print_files(&rt, rt).and(print_ends(&rt, rt)) {
        Some(()) => ExitCode::from(0),
        None => ExitCode::from(1),
    }
}
