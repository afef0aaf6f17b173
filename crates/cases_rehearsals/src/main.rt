//! Rehearsals: with what each command line ends and what it writes, and runs by the most bays that there can be, again and
//! again, on standard output, where it is compared byte by byte.
#![tactic(auto)]

use front_ports::MemBytes;
use rehearse_plan::Rehearsal;
use rehearse_runs::{Answer, run_plan, run_rehearse};
use std::alloc::{AllocError, Global};
use std::process::ExitCode;
use std::sync::Wait;
use std::thread::Threads;

// Command lines, after the program's name.
const LINES: &str = "\
rehearse 0 8
rehearse 3 5
rehearse 1 20000
rehearse 18446744073709551615 1
rehearse 0
rehearse 0 8 9
rehearse -1 8
rehearse 18446744073709551616 8
rehearse 0 0
rehearse 0 20001
";

// So many runs have the most bays.
const TIMES: u32 = 20;

// By 64 bays, each of which has ten requests.
const MANY_BAYS: Rehearsal = Rehearsal {
    start: 0,
    count: 640,
    bays: 64,
};

fn words_of(alloc: Global, line: &str) -> Result<Vec<String>, AllocError> {
    let mut words = Vec::new(alloc);
    for word in line.split(' ') {
        words.push(String::from_str(alloc, word)?)?;
    }
    Ok(words)
}

// The status, how many requests were refused, and what was written.
fn told(alloc: Global, done: Answer, out: &MemBytes) -> Option<String> {
    let text = str::from_utf8(out.bytes()).ok()?;
    let code = done.status.code();
    match done.refused {
        Some(count) => format!(in alloc; "{code}, {count} requests\n{text}").ok(),
        None => format!(in alloc; "{code}\n{text}").ok(),
    }
}

fn told_by<R: Threads + Wait + Copy + Send + Sync + Drop>(
    rt: &R,
    alloc: Global,
    words: &Vec<String>,
    out: &mut MemBytes,
) -> Option<String> {
    let done = run_rehearse(rt, alloc, words, out).answer();
    told(alloc, done, out)
}

fn rehearsed<R: Threads + Wait + Copy + Send + Sync + Drop>(
    rt: &R,
    alloc: Global,
    line: &str,
) -> Option<String> {
    let mut out = MemBytes::new(alloc, 4096, Vec::new(alloc)).ok()?;
    let told = match words_of(alloc, line) {
        Ok(words) => told_by(rt, alloc, &words, &mut out),
        Err(_) => None,
    };
    drop(out);
    told
}

fn by_many_bays<R: Threads + Wait + Copy + Send + Sync + Drop>(
    rt: &R,
    alloc: Global,
) -> Option<String> {
    let mut out = MemBytes::new(alloc, 4096, Vec::new(alloc)).ok()?;
    let done = run_plan(rt, alloc, MANY_BAYS, &mut out).answer();
    let told = told(alloc, done, &out);
    drop(out);
    told
}

// What the first run by many bays told, where all others told the same.
fn repeated<R: Threads + Wait + Copy + Send + Sync + Drop>(
    rt: &R,
    alloc: Global,
) -> Option<String> {
    let first = by_many_bays(rt, alloc)?;
    for _ in 1..TIMES {
        if by_many_bays(rt, alloc)?.as_str() != first.as_str() {
            return None;
        }
    }
    Some(first)
}

// Whether it could be printed.
fn say(rt: &HostRuntime, head: &str, text: &str) -> bool {
    print!(rt; "{head}\n{text}").is_ok()
}

// Whether all command lines were run, and what they came to was printed.
fn run_lines<R: Threads + Wait + Copy + Send + Sync + Drop>(host: &HostRuntime, rt: &R) -> bool {
    for line in LINES.lines() {
        let Some(text) = rehearsed(rt, host.alloc(), line) else {
            return false;
        };
        if !say(host, line, text.as_str()) {
            return false;
        }
    }
    true
}

fn main(rt: HostRuntime) -> ExitCode {
    if !run_lines(&rt, &rt) {
        return ExitCode::from(1);
    }
    let Some(text) = repeated(&rt, rt.alloc()) else {
        return ExitCode::from(1);
    };
    if say(&rt, "by 64 bays, 20 times", text.as_str()) {
        ExitCode::from(0)
    } else {
        ExitCode::from(1)
    }
}
