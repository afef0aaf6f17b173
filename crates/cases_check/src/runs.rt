// Runs of `apiaggd check` over the files of this folder's `data`: what each ends with, what it writes, and what standard error says of it, on
// standard output, where it is compared byte by byte. `data/runs.txt` has a command line and the file of its log a row, and after `>` how many
// bytes the output takes, if there is such a limit.
use case_rows::{is_row, read_cases};
use check_command::{Checked, reason_text, run_summed};
use command_ends::{Ended, ReaderSource, SystemFiles};
use front_base::Bytes;
use front_ports::{Files, MemBytes};
use std::alloc::{AllocError, Global};

/// More than any answer has, and any summary.
const MOST_WRITTEN: u64 = 4096;

fn words_of(alloc: Global, line: &str) -> Result<Vec<String>, AllocError> {
    let mut words = Vec::new(alloc);
    for word in line.split_whitespace() {
        words.push(String::from_str(alloc, word)?)?;
    }
    Ok(words)
}

// The bytes of a file, a line that is no event's where it can't be read.
fn log_of(rt: &HostRuntime, name: &str) -> Bytes {
    let alloc = rt.alloc();
    match SystemFiles::new(rt).read(alloc, name) {
        Ok(bytes) => bytes,
        Err(_) => Bytes::new(Vec::new(alloc)),
    }
}

// What is said of the first line that doesn't conform.
fn line_text(alloc: Global, checked: Option<Checked>) -> Result<String, AllocError> {
    match checked {
        Some(checked) => reason_text(alloc, checked),
        None => Ok(String::new(alloc)),
    }
}

// One run over a log, whose output takes so many bytes: its status, what it wrote, and what is told.
fn told(
    rt: &HostRuntime,
    words: &Vec<String>,
    log: &[u8],
    most: u64,
) -> Result<String, AllocError> {
    let alloc = rt.alloc();
    let mut files = SystemFiles::new(rt);
    let mut source = ReaderSource::new(log);
    let Ok(mut out) = MemBytes::new(alloc, most, Vec::new(alloc)) else {
        return Ok(String::new(alloc));
    };
    let done = run_summed(alloc, words, &mut files, &mut source, &mut out);
    let checked = done.checked;
    let ended = Ended::of(done.status, done.why);
    let reason = ended.reason(files.reason(), source.reason(), None);
    let text = ended.told(alloc, words.as_slice(), reason)?;
    let line = line_text(alloc, checked)?;
    let written = str::from_utf8(out.bytes()).unwrap_or("?");
    format!(in alloc; "{}\n{written}{text}{line}", ended.status.code())
}

// The parts of a row before and after some text, where it has it.
fn parts_at<'r>(row: &'r str, text: &str) -> (&'r str, &'r str) {
    match row.split_once(text) {
        Some(parts) => parts,
        None => (row, ""),
    }
}

// How many bytes the output of a run takes.
fn most_of(text: &str) -> u64 {
    match text.parse::<u64>() {
        Ok(most) if most < MOST_WRITTEN => most,
        _ => MOST_WRITTEN,
    }
}

fn show(rt: &HostRuntime, row: &str) -> bool {
    let (line, ports) = parts_at(row, " < ");
    let (name, most) = parts_at(ports, " > ");
    let Ok(words) = words_of(rt.alloc(), line) else {
        return false;
    };
    let log = log_of(rt, name);
    match told(rt, &words, log.as_slice(), most_of(most)) {
        Ok(text) => print!(rt; "apiaggd {row}\n{text}").is_ok(),
        Err(_) => false,
    }
}

/// Prints the runs of `data/runs.txt`, and answers whether each could be.
pub fn show_runs(rt: &HostRuntime) -> bool {
    let Ok(runs) = read_cases(rt, "runs.txt") else {
        return false;
    };
    for row in runs.lines() {
        if is_row(row) && !show(rt, row) {
            return false;
        }
    }
    true
}
