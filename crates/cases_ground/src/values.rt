use crate::rows::{input_of, text_of};
use case_rows::{fields, spelled};
use front_base::{NoMemory, number_of};
use json_value::{ValueError, has_float, inner, is_text, present, read_value, text_in};
use serde_json::Value;
use std::alloc::{AllocError, Global};

fn push_text(alloc: Global, out: &mut String, value: &Value) -> Result<(), AllocError> {
    let text = value.to_string(alloc)?;
    out.push_str(spelled(alloc, text.as_bytes()).as_str())
}

fn push_value(alloc: Global, out: &mut String, value: &Value) -> Result<(), NoMemory> {
    push_text(alloc, out, value)?;
    Ok(write!(out, ", has_float {}", has_float(value))?)
}

fn push_fault(out: &mut String, fault: ValueError) -> Result<(), NoMemory> {
    match fault {
        ValueError::NotJson => Ok(out.push_str("NotJson")?),
        ValueError::NoMemory => Err(NoMemory),
    }
}

/// The value that bytes are, and whether it holds a number that isn't whole or doesn't fit 64 bits.
pub fn show_value(alloc: Global, out: &mut String, row: &str) -> Result<(), NoMemory> {
    let bytes = input_of(alloc, row);
    match read_value(alloc, bytes.as_slice()) {
        Ok(value) => {
            let shown = push_value(alloc, out, &value);
            drop(value);
            shown
        }
        Err(fault) => push_fault(out, fault),
    }
}

fn push_times(text: &mut Vec<u8>, byte: u8, count: u64) -> Result<(), AllocError> {
    for _ in 0..count {
        text.push(byte)?;
    }
    Ok(())
}

// So many arrays, one inside another.
fn nested(alloc: Global, depth: u64) -> Result<Vec<u8>, NoMemory> {
    let mut text = Vec::new(alloc);
    push_times(&mut text, b'[', depth)?;
    push_times(&mut text, b']', depth)?;
    Ok(text)
}

/// Whether so many arrays are read, one inside another.
pub fn show_nested(alloc: Global, out: &mut String, row: &str) -> Result<(), NoMemory> {
    let text = nested(alloc, number_of(row.as_bytes()).unwrap_or(0))?;
    match read_value(alloc, text.as_slice()) {
        Ok(value) => {
            let shown = push_value(alloc, out, &value);
            drop(value);
            shown
        }
        Err(fault) => push_fault(out, fault),
    }
}

// The member of a name, or of a name within another, with `/` between them.
fn member_of<'v>(value: &'v Value, names: &str) -> Option<&'v Value> {
    match names.split_once('/') {
        Some((outer, name)) => inner(value, outer, name),
        None => present(value, names),
    }
}

fn push_member(
    alloc: Global,
    out: &mut String,
    found: Option<&Value>,
    text: &str,
) -> Result<(), NoMemory> {
    match found {
        Some(value) => push_text(alloc, out, value)?,
        None => out.push_str("none")?,
    }
    Ok(write!(
        out,
        ", text_in {:?}, is_text {}",
        text_in(found),
        is_text(text, found)
    )?)
}

/// A member of an object, its text, and whether it is that text.
pub fn show_member(alloc: Global, out: &mut String, row: &str) -> Result<(), NoMemory> {
    let (names, rest) = fields(row);
    let (text, object) = fields(rest);
    let text = text_of(alloc, text);
    let object = input_of(alloc, object);
    match read_value(alloc, object.as_slice()) {
        Ok(value) => {
            let shown = push_member(alloc, out, member_of(&value, names), text.as_str());
            drop(value);
            shown
        }
        Err(fault) => push_fault(out, fault),
    }
}
