use crate::rows::{input_of, text_of};
use case_rows::{fields, spelled};
use front_base::{Bytes, Line, MOST_LINE_BYTES, NoMemory, Text, Texts, User, number_of};
use std::alloc::Global;

// The texts of a row. One that memory refuses is left out.
fn texts_of(alloc: Global, row: &str) -> Texts {
    let mut texts = Vec::new(alloc);
    for field in row.split(" | ") {
        let _ = texts.push(Text::new(text_of(alloc, field)));
    }
    Texts::new(texts)
}

fn push_slice(out: &mut String, texts: &Texts) -> Result<(), NoMemory> {
    write!(out, "{} texts", texts.as_slice().len())?;
    for text in texts.as_slice() {
        write!(out, ", {:?}", text.as_str())?;
    }
    Ok(())
}

// One that memory refuses is left out.
fn push_parts(out: &mut String, texts: Texts) {
    for text in texts.into_vec() {
        let _ = write!(out, ", {:?}", text.into_string().as_str());
    }
}

fn show_texts(alloc: Global, out: &mut String, row: &str) -> Result<(), NoMemory> {
    let texts = texts_of(alloc, row);
    let copied = texts.copy(alloc);
    drop(texts);
    let copy = copied?;
    let shown = push_slice(out, &copy);
    push_parts(out, copy);
    shown
}

fn show_bytes(alloc: Global, out: &mut String, row: &str) -> Result<(), NoMemory> {
    let bytes = Bytes::new(input_of(alloc, row));
    let copied = bytes.copy(alloc);
    drop(bytes);
    let copy = copied?;
    let text = spelled(alloc, copy.as_slice());
    let _ = write!(out, "{copy:?}, {text}, ");
    drop(text);
    Ok(write!(out, "{:?}", copy.into_vec())?)
}

// A line of these bytes, or of none where they are too many.
fn line_of(alloc: Global, row: &str) -> Line {
    let (bay, rest) = fields(row);
    let (number, bytes) = fields(rest);
    let bytes = input_of(alloc, bytes);
    Line {
        bay: u16::try_from(number_of(bay.as_bytes()).unwrap_or(0)).unwrap_or(0),
        number: number_of(number.as_bytes()).unwrap_or(0),
        bytes: if bytes.len() as u64 <= MOST_LINE_BYTES {
            Bytes::new(bytes)
        } else {
            Bytes::new(Vec::new(alloc))
        },
    }
}

fn show_line(alloc: Global, out: &mut String, row: &str) -> Result<(), NoMemory> {
    let line = line_of(alloc, row);
    let copied = line.copy(alloc);
    drop(line);
    let copy = copied?;
    let shown = write!(out, "{copy:?}");
    drop(copy);
    Ok(shown?)
}

fn user_of(alloc: Global, row: &str) -> User {
    let (name, rest) = fields(row);
    let (uid, groups) = fields(rest);
    User {
        name: Text::new(text_of(alloc, name)),
        uid: Text::new(text_of(alloc, uid)),
        groups: texts_of(alloc, groups),
    }
}

fn show_user(alloc: Global, out: &mut String, row: &str) -> Result<(), NoMemory> {
    let user = user_of(alloc, row);
    let copied = user.copy(alloc);
    drop(user);
    let copy = copied?;
    let shown = write!(out, "{copy:?}");
    drop(copy);
    Ok(shown?)
}

/// A copy of texts, of bytes, of a user or of a line, and what the first two give back.
pub fn show_copy(alloc: Global, out: &mut String, row: &str) -> Result<(), NoMemory> {
    let (kind, rest) = fields(row);
    match kind {
        "texts" => show_texts(alloc, out, rest),
        "bytes" => show_bytes(alloc, out, rest),
        "user" => show_user(alloc, out, rest),
        _ => show_line(alloc, out, rest),
    }
}
