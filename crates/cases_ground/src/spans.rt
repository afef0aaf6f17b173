use crate::rows::{input_of, text_of};
use case_rows::{fields, spelled};
use front_base::{NoMemory, number_of};
use json_span::{JsonError, check, compact, escape_from, member, push_quoted, quote};
use std::alloc::{AllocError, Global};

// The number that a field spells, or 0.
fn count_of(field: &str) -> usize {
    usize::try_from(number_of(field.as_bytes()).unwrap_or(0)).unwrap_or(0)
}

fn push_bytes(alloc: Global, out: &mut String, bytes: &[u8]) -> Result<(), NoMemory> {
    let text = spelled(alloc, bytes);
    Ok(out.push_str(text.as_str())?)
}

// Whether bytes are a JSON text.
fn show_text(alloc: Global, out: &mut String, row: &str) -> Result<(), NoMemory> {
    let text = input_of(alloc, row);
    let word = match check(text.as_slice()) {
        Ok(()) => "a text",
        Err(_) => "no text",
    };
    Ok(out.push_str(word)?)
}

// Where bytes go wrong, as a check says and as a try to compact them does.
fn show_fault(alloc: Global, out: &mut String, row: &str) -> Result<(), NoMemory> {
    let text = input_of(alloc, row);
    let checked = check(text.as_slice());
    let joined = compact(alloc, text.as_slice()).err();
    Ok(write!(out, "{checked:?}, {joined:?}")?)
}

fn push_times(text: &mut Vec<u8>, byte: u8, count: usize) -> Result<(), AllocError> {
    for _ in 0..count {
        text.push(byte)?;
    }
    Ok(())
}

// So many opening brackets, and so many closing ones.
fn brackets(alloc: Global, row: &str) -> Result<Vec<u8>, AllocError> {
    let (opening, closing) = fields(row);
    let mut text = Vec::new(alloc);
    push_times(&mut text, b'[', count_of(opening))?;
    push_times(&mut text, b']', count_of(closing))?;
    Ok(text)
}

// What a check says of them.
fn show_brackets(alloc: Global, out: &mut String, row: &str) -> Result<(), NoMemory> {
    let text = brackets(alloc, row)?;
    let checked = check(text.as_slice());
    Ok(write!(out, "{checked:?}")?)
}

// The compact text of bytes.
fn show_compact(alloc: Global, out: &mut String, row: &str) -> Result<(), NoMemory> {
    let text = input_of(alloc, row);
    match compact(alloc, text.as_slice()) {
        Ok(joined) => push_bytes(alloc, out, joined.as_slice()),
        Err(JsonError::NotJson(fault)) => Ok(write!(out, "{fault:?}")?),
        Err(JsonError::NoMemory) => Err(NoMemory),
    }
}

// A text as a JSON string.
fn show_quoted(alloc: Global, out: &mut String, row: &str) -> Result<(), NoMemory> {
    let text = text_of(alloc, row);
    let string = quote(alloc, text.as_str())?;
    push_bytes(alloc, out, string.as_slice())
}

// Escapes what stands from there on, and writes the text after it as a JSON string.
fn show_escaped(alloc: Global, out: &mut String, row: &str) -> Result<(), NoMemory> {
    let (from, rest) = fields(row);
    let (bytes, text) = fields(rest);
    let mut bytes = input_of(alloc, bytes);
    let from = count_of(from).min(bytes.len());
    escape_from(&mut bytes, from)?;
    push_bytes(alloc, out, bytes.as_slice())?;
    out.push_str(", ")?;
    push_quoted(&mut bytes, text_of(alloc, text).as_str())?;
    push_bytes(alloc, out, bytes.as_slice())
}

// Where the value of a member stands.
fn show_span(alloc: Global, out: &mut String, row: &str) -> Result<(), NoMemory> {
    let (name, text) = fields(row);
    let name = text_of(alloc, name);
    let text = input_of(alloc, text);
    let span = member(text.as_slice(), name.as_str());
    Ok(write!(out, "{span:?}")?)
}

/// What JSON texts are as they are spelled, for a file whose name begins with `json_`.
pub fn show_json(alloc: Global, out: &mut String, file: &str, row: &str) -> Result<(), NoMemory> {
    match file {
        "json_texts.txt" => show_text(alloc, out, row),
        "json_faults.txt" => show_fault(alloc, out, row),
        "json_brackets.txt" => show_brackets(alloc, out, row),
        "json_compact.txt" => show_compact(alloc, out, row),
        "json_quoted.txt" => show_quoted(alloc, out, row),
        "json_escaped.txt" => show_escaped(alloc, out, row),
        _ => show_span(alloc, out, row),
    }
}
