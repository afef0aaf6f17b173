// Where bytes stop being JSON.
ghost use Rattle.std.specs.Prelude.{◌≡◌, ◌≤◌, None, IfSome, length};
ghost use Rattle.json_span.specs.Fault.{FaultAt};
ghost use Rattle.json_span.specs.Value.{IsText};

use json_span::check;
use std::alloc::{AllocError, Global};

/// A line of a file, and a byte of that line, both counted from 1.
#[derive(Clone, Copy, Debug, PartialEq, Eq)]
pub struct Position {
    pub line: u64,
    pub column: u64,
}

/// How many bytes at the start still begin some JSON text, or None for a JSON text.
pub fn json_stop(bytes: &[u8]) -> Option<usize>
    ensures stop { IfSome result (FaultAt IsText bytes.now) }
    ensures none { result ≡ None → IsText bytes.now }
{
    match check(bytes) {
        Ok(()) => None,
        Err(fault) => Some(fault.at),
    }
}

/// Where the byte after these bytes stands.
pub fn position_of(before: &[u8]) -> Position {
    let mut place = Position { line: 1, column: 1 };
    for byte in before {
        if *byte == b'\n' {
            place.line = place.line.saturating_add(1);
            place.column = 1;
        } else {
            place.column = place.column.saturating_add(1);
        }
    }
    place
}

// What is JSON by its grammar and still refused.
const BEYOND: &str =
    "JSON with a number too great, an escape of half a surrogate pair, or more than 127 arrays and objects \
inside one another";

/// Why bytes were refused as no JSON: the line and the column of the first byte that no JSON text has there.
pub fn json_reason(alloc: Global, bytes: &[u8]) -> Result<String, AllocError> {
    let Some(stop) = json_stop(bytes) else {
        return String::from_str(alloc, BEYOND);
    };
    if stop >= bytes.len() {
        return String::from_str(alloc, "not JSON: the file ends too early");
    }
    let (before, _) = bytes.split_at(stop);
    let Position { line, column } = position_of(before);
    format!(in alloc; "not JSON: line {line}, column {column}")
}

fn is_blank(byte: u8) -> bool {
    matches!(byte, b' ' | b'\t' | b'\r' | b'\n')
}

// Whether the first byte that isn't blank begins neither an object nor an array of JSON, as in YAML.
fn begins_otherwise(bytes: &[u8]) -> bool {
    for byte in bytes {
        if !is_blank(*byte) {
            return !matches!(*byte, b'{' | b'[');
        }
    }
    false
}

/// Why the bytes of the file of that name were refused as no JSON; and what makes JSON of them, where they may be YAML.
pub fn file_reason(alloc: Global, name: &str, bytes: &[u8]) -> Result<String, AllocError> {
    let reason = json_reason(alloc, bytes)?;
    if !begins_otherwise(bytes) || json_stop(bytes).is_none() {
        return Ok(reason);
    }
    format!(in alloc; "{reason}; YAML is not read: 'yq -o json {name}' makes JSON of it")
}
