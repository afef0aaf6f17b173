// Runs of `apiaggd probe` over the files of this folder's `data` and a dial in memory: what each ends with, what it writes, and what standard
// error says of it, on standard output, where it is compared byte by byte. `data/runs.txt` has a command line a row, and after `|` what is
// answered to each call, one after another, and after `>` how many bytes the output takes, if there is such a limit. Whoever asks whether
// rounds go on is answered that they don't.
use crate::peers::peer_of;
use case_rows::{fields, is_row, read_cases};
use command_ends::{Ended, SystemFiles};
use front_base::{Address, Moment};
use front_ports::{MemBytes, MemClock};
use probe_command::{ListFault, ProbeEnded, list_fault_text, run_probe};
use probe_rounds::GoesFor;
use std::alloc::{AllocError, Global};

/// More than any run writes.
const MOST_WRITTEN: u64 = 4096;

fn words_of(alloc: Global, line: &str) -> Result<Vec<String>, AllocError> {
    let mut words = Vec::new(alloc);
    for word in line.split_whitespace() {
        words.push(String::from_str(alloc, word)?)?;
    }
    Ok(words)
}

// What is told of a front door that gave no list.
fn list_text(alloc: Global, unlisted: Option<ListFault>) -> Result<String, AllocError> {
    let front = Address {
        ip: [127, 0, 0, 1],
        port: 8001,
    };
    match unlisted {
        Some(fault) => list_fault_text(alloc, front, fault, None),
        None => Ok(String::new(alloc)),
    }
}

// One run whose calls are answered so, and whose output takes so many bytes: its status, what it wrote, and what is told.
fn told(rt: &HostRuntime, words: &Vec<String>, answers: &str, most: u64) -> Option<String> {
    let alloc = rt.alloc();
    let mut files = SystemFiles::new(rt);
    let mut dial = peer_of(alloc, answers).ok()?;
    let mut tokens = SystemFiles::new(rt);
    let mut clock = MemClock::new(Moment::epoch(), 1);
    let mut going = GoesFor::new(0);
    let mut out = MemBytes::new(alloc, most, Vec::new(alloc)).ok()?;
    let ProbeEnded {
        status,
        why,
        unlisted,
    } = run_probe(
        alloc,
        words,
        &mut files,
        &mut tokens,
        &mut dial,
        &mut clock,
        &mut going,
        &mut out,
    );
    let ended = Ended::of(status, why);
    let unread = match tokens.reason() {
        Some(reason) => Some(reason),
        None => files.reason(),
    };
    let reason = ended.reason(unread, None, None);
    let text = ended.told(alloc, words.as_slice(), reason).ok()?;
    let list = list_text(alloc, unlisted).ok()?;
    let written = str::from_utf8(out.bytes()).unwrap_or("?");
    format!(in alloc; "{}\n{written}{text}{list}", ended.status.code()).ok()
}

// How many bytes the output of a run takes.
fn most_of(text: &str) -> u64 {
    match text.parse::<u64>() {
        Ok(most) if most < MOST_WRITTEN => most,
        _ => MOST_WRITTEN,
    }
}

fn show(rt: &HostRuntime, row: &str) -> bool {
    let (line, rest) = fields(row);
    let (answers, most) = match rest.split_once(" > ") {
        Some(parts) => parts,
        None => (rest, ""),
    };
    let Ok(words) = words_of(rt.alloc(), line) else {
        return false;
    };
    match told(rt, &words, answers, most_of(most)) {
        Some(text) => print!(rt; "apiaggd {row}\n{text}").is_ok(),
        None => false,
    }
}

/// Prints the runs of `data/runs.txt`, and answers whether each could be.
pub fn show_runs(rt: &HostRuntime) -> bool {
    let Ok(runs) = read_cases(rt, "runs.txt") else {
        return false;
    };
    for row in runs.lines() {
        if is_row(row) && !show(rt, row) {
            return false;
        }
    }
    true
}
