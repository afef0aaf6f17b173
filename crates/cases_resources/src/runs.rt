// Runs of `apiaggd resources` over the files of this folder's `data` and servers in memory: what each ends with, what it writes, whom it asked
// with which bytes, and what standard error says of it, on standard output, where it is compared byte by byte. A row of `data/runs.txt` is a
// command line and, after `<`, the file with the reply of each server that is asked, `refused` for one that isn't reached, or `fault` before a
// file whose link fails at its first read; and after `>` how many bytes the output takes, if there is such a limit.
use crate::reasons::Reasons;
use crate::servers::dial_of;
use case_rows::{is_row, read_cases, spelled};
use command_ends::{Ended, SystemFiles};
use front_base::{NoMemory, Text};
use front_ports::{MemBytes, MemDial};
use resources_command::{
    EarlierFiles, PreviousRefusal, ResourcesEnded, ResourcesWords, previous_text, read_resources,
    run_resources,
};
use std::alloc::{AllocError, Global};

/// More than any document has.
const MOST_WRITTEN: u64 = 65536;

fn words_of(alloc: Global, line: &str) -> Result<Vec<String>, AllocError> {
    let mut words = Vec::new(alloc);
    for word in line.split_whitespace() {
        words.push(String::from_str(alloc, word)?)?;
    }
    Ok(words)
}

// Whom was asked, with which bytes.
fn calls_text(alloc: Global, dial: &MemDial) -> Result<String, AllocError> {
    let mut text = String::new(alloc);
    let Some(calls) = dial.calls() else {
        return String::from_str(alloc, "asked more than there are\n");
    };
    for call in calls {
        let sent = spelled(alloc, call.sent.as_slice());
        let port = call.to.port;
        let line = format!(in alloc; "asked {port}: {sent}\n")?;
        text.push_str(line.as_str())?;
    }
    Ok(text)
}

fn refusal_line(
    alloc: Global,
    refused: &Option<PreviousRefusal>,
    reason: Option<&str>,
) -> Result<String, AllocError> {
    match refused {
        Some(refused) => previous_text(alloc, refused, reason),
        None => Ok(String::new(alloc)),
    }
}

// What is shown of a run that ended so, by whom it asked and what it wrote. `reason` is the system's for a file that could not be read.
fn shown(
    alloc: Global,
    words: &[String],
    ended: &Ended,
    previous: &Option<PreviousRefusal>,
    reason: Option<&'static str>,
    dial: &MemDial,
    notes: &str,
    written: &[u8],
) -> Result<String, AllocError> {
    let calls = calls_text(alloc, dial)?;
    let text = ended.told(alloc, words, ended.reason(reason, None, None))?;
    let line = refusal_line(alloc, previous, reason)?;
    let written = str::from_utf8(written).unwrap_or("?");
    format!(in alloc;
        "{}\n{written}{calls}{notes}{text}{line}",
        ended.status.code()
    )
}

// The name of the earlier document.
fn previous_of(alloc: Global, words: &Vec<String>) -> Option<Text> {
    match read_resources(alloc, words) {
        Ok(
            ResourcesWords {
                names: _,
                previous,
                request_timeout: _,
            },
        ) => previous,
        Err(_) => None,
    }
}

// One run over these servers, whose output takes so many bytes: its status, what it wrote, whom it asked, and what is told.
fn told(
    rt: &HostRuntime,
    words: &Vec<String>,
    dial: &mut MemDial,
    most: u64,
) -> Result<String, AllocError> {
    let alloc = rt.alloc();
    let mut files = EarlierFiles::new(rt, SystemFiles::new(rt), previous_of(alloc, words));
    let Ok(mut out) = MemBytes::new(alloc, most, Vec::new(alloc)) else {
        return Ok(String::new(alloc));
    };
    let mut notes = Reasons::new(alloc);
    let ResourcesEnded {
        status,
        why,
        previous,
    } = run_resources(alloc, words, &mut files, dial, &mut out, &mut notes);
    let ended = Ended::of(status, why);
    shown(
        alloc,
        words.as_slice(),
        &ended,
        &previous,
        files.files().reason(),
        dial,
        notes.text(),
        out.bytes(),
    )
}

// The parts of a row before and after some text, where it has it.
fn parts_at<'r>(row: &'r str, text: &str) -> (&'r str, &'r str) {
    match row.split_once(text) {
        Some(parts) => parts,
        None => (row, ""),
    }
}

// How many bytes the output of a run takes.
fn most_of(text: &str) -> u64 {
    match text.parse::<u64>() {
        Ok(most) if most < MOST_WRITTEN => most,
        _ => MOST_WRITTEN,
    }
}

fn show(rt: &HostRuntime, row: &str) -> bool {
    let (rest, most) = parts_at(row, " > ");
    let (line, servers) = parts_at(rest, " < ");
    let Ok(words) = words_of(rt.alloc(), line) else {
        return false;
    };
    let mut dial = match dial_of(rt, servers) {
        Ok(dial) => dial,
        Err(NoMemory) => return false,
    };
    match told(rt, &words, &mut dial, most_of(most)) {
        Ok(text) => print!(rt; "apiaggd {row}\n{text}").is_ok(),
        Err(_) => false,
    }
}

/// Prints the runs of `data/runs.txt`, and answers whether each could be.
pub fn show_runs(rt: &HostRuntime) -> bool {
    let Ok(runs) = read_cases(rt, "runs.txt") else {
        return false;
    };
    for row in runs.lines() {
        if is_row(row) && !show(rt, row) {
            return false;
        }
    }
    true
}
