// A run of `explain`.
use crate::order::Order;
use crate::told::Told;
use case_faults::files_of;
use command_ends::{ReaderSource, Status};
use explain_run::run_desk;
use front_ports::{MemBytes, MemFiles};
use std::alloc::{AllocError, Global};

const WORDS: &str =
    "explain --token-auth-file=t --audit-policy-file=p --apiservices=s --endpoints=e";

// How many bytes of lines there is room for.
const ROOM: u64 = 16_384;

fn split_words(alloc: Global) -> Result<Vec<String>, AllocError> {
    let mut words = Vec::new(alloc);
    for word in WORDS.split(' ') {
        words.push(String::from_str(alloc, word)?)?;
    }
    Ok(words)
}

fn words_of(alloc: Global) -> Vec<String> {
    match split_words(alloc) {
        Ok(words) => words,
        Err(_) => Vec::new(alloc),
    }
}

fn is_kept(status: Status, written: &[u8], lines: &[u8]) -> bool {
    match status {
        Status::Done => written == lines,
        Status::NoMemory => lines.starts_with(written),
        _ => false,
    }
}

fn status_word(status: Status) -> &'static str {
    match status {
        Status::Done => "status 0",
        Status::NoMemory => "status 6",
        _ => "another status",
    }
}

// The run itself, over these files and with this room for its lines.
fn told(
    alloc: Global,
    requests: &str,
    lines: &str,
    order: &Order,
    files: &mut MemFiles,
    out: &mut MemBytes,
) -> Told {
    let words = words_of(alloc);
    let mut source = ReaderSource::new(requests.as_bytes());
    if order.begin(alloc) {
        return Told::before();
    }
    let status = run_desk(alloc, &words, files, &mut source, out).status;
    Told {
        refused: order.end(alloc),
        kept: is_kept(status, out.bytes(), lines.as_bytes()),
        how: status_word(status),
    }
}

/// What is told of `explain` of these requests, which owe these lines.
pub fn explains(alloc: Global, requests: &str, lines: &str, order: &Order) -> Told {
    let Ok(mut files) = files_of(alloc, "none") else {
        return Told::before();
    };
    match MemBytes::new(alloc, ROOM, Vec::new(alloc)) {
        Ok(mut out) => told(alloc, requests, lines, order, &mut files, &mut out),
        Err(_) => Told::before(),
    }
}
