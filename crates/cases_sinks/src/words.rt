// What lanes, outlets and sinks answer, in words. A text that memory refuses is missing, so that a comparison with it fails.
ghost use Rattle.std.specs.Prelude.{◌≡◌, ◌≤◌, length};
ghost use Rattle.front_base.specs.declared.line.TheConstants.{MOST_LINE_BYTES};

use case_rows::spelled;
use front_base::{Bytes, Line, MOST_LINE_BYTES, number_of};
use std::alloc::Global;
use truncate_backend::{Offer, Outlet, TryNote};

/// The number of a field, or 0.
pub fn number_in(field: &str) -> u64 {
    number_of(field.as_bytes()).unwrap_or(0)
}

/// The number of a write that fails, in a list of its own: `-` has none. None where memory refuses it.
pub fn fails_of(alloc: Global, field: &str) -> Vec<u64> {
    let mut fails = Vec::new(alloc);
    if let Some(number) = number_of(field.as_bytes()) {
        let _pushed = fails.push(number);
    }
    fails
}

fn bytes_of(alloc: Global, text: &str) -> Vec<u8>
    ensures { length result.items ≤ MOST_LINE_BYTES }
{
    match text.as_bytes().to_vec(alloc) {
        Ok(bytes) if bytes.len() as u64 <= MOST_LINE_BYTES => bytes,
        _ => Vec::new(alloc),
    }
}

/// A bay's line that says so.
pub fn line(alloc: Global, bay: u16, text: &str) -> Line
    ensures { result.bay ≡ bay }
{
    Line {
        bay,
        number: 0,
        bytes: Bytes::new(bytes_of(alloc, text)),
    }
}

fn bytes_of_letter(alloc: Global, letter: u8, count: u64) -> Vec<u8>
    ensures { length result.items ≤ MOST_LINE_BYTES }
{
    let mut bytes = Vec::new(alloc);
    for _ in 0..count {
        let _pushed = bytes.push(letter);
    }
    if bytes.len() as u64 <= MOST_LINE_BYTES {
        bytes
    } else {
        Vec::new(alloc)
    }
}

/// A line of this letter, so many times.
pub fn letters(alloc: Global, letter: u8, count: u64) -> Line {
    Line {
        bay: 0,
        number: 0,
        bytes: Bytes::new(bytes_of_letter(alloc, letter, count)),
    }
}

/// Adds a text.
pub fn add(out: &mut String, text: &str) {
    let _added = out.push_str(text);
}

fn text_of(line: &Line) -> &str {
    match str::from_utf8(line.bytes.as_slice()) {
        Ok(text) => text,
        Err(_) => "no text",
    }
}

/// Adds what came of an offer.
pub fn add_offer(out: &mut String, offer: Offer) {
    match &offer {
        Offer::Taken => add(out, "[taken]"),
        Offer::Full(line) => {
            add(out, "[full ");
            add(out, text_of(line));
            add(out, "]");
        }
        Offer::Failed(_) => add(out, "[failed]"),
    }
}

/// Pops a line, and adds which.
pub fn add_pop<U: Outlet>(out: &mut String, outlet: &mut U) {
    add(out, "[");
    match outlet.pop() {
        Some(line) => add(out, text_of(&line)),
        None => add(out, "none"),
    }
    add(out, "]");
}

// How often the first byte stands before any other one.
fn first_run(bytes: &[u8], first: u8) -> usize {
    for (at, byte) in bytes.iter().enumerate() {
        if *byte != first {
            return at;
        }
    }
    bytes.len()
}

// Adds a byte and how often it stands there. What stands after these.
fn add_run<'b>(alloc: Global, out: &mut String, bytes: &'b [u8]) -> &'b [u8] {
    let Some(first) = bytes.first() else {
        return bytes;
    };
    let count = first_run(bytes, *first);
    let _added = write!(out, " {count}{}", spelled(alloc, &[*first]).as_str());
    bytes.get(count..).unwrap_or_default()
}

/// Adds bytes, of which few stand beside other ones: each and how often it stands there.
pub fn add_runs(alloc: Global, out: &mut String, bytes: &[u8]) {
    let mut rest = bytes;
    for _ in 0..20 {
        rest = add_run(alloc, out, rest);
    }
}

/// Adds what was noted of tries.
pub fn add_notes(out: &mut String, notes: &[TryNote]) {
    let _added = write!(out, " {notes:?}");
}
