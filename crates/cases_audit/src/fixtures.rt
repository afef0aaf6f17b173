// Values of rows. What memory refuses comes out empty, so that the output of its case is a wrong one.
ghost use Rattle.std.specs.Prelude.{◌≤◌, length};

use case_rows::bytes_of;
use front_base::{Bytes, Line, Text, Texts, User};
use std::alloc::Global;

/// The field of that number of a row, from 0.
pub fn field(row: &str, number: usize) -> &str {
    row.split(" | ").nth(number).unwrap_or("")
}

/// The word of that number of a field, from 0: `-` is the empty one.
pub fn word(field: &str, number: usize) -> &str {
    match field.split(' ').nth(number) {
        Some("-") | None => "",
        Some(word) => word,
    }
}

/// Bytes as they are printed, where they are UTF-8.
pub fn shown(bytes: &[u8]) -> &str {
    str::from_utf8(bytes).unwrap_or("not UTF-8")
}

pub fn text_of(alloc: Global, text: &str) -> Text {
    match Text::copy_of(alloc, text) {
        Ok(text) => text,
        Err(_) => Text::new(String::new(alloc)),
    }
}

/// The text that a field spells: `-` is the empty one.
pub fn spelled_text(alloc: Global, field: &str) -> Text {
    if field == "-" {
        return Text::new(String::new(alloc));
    }
    match String::from_utf8(bytes_of(alloc, field)) {
        Ok(text) => Text::new(text),
        Err(_) => Text::new(String::new(alloc)),
    }
}

fn groups_of(alloc: Global, group: &str) -> Texts {
    if group.is_empty() {
        return Texts::new(Vec::new(alloc));
    }
    match vec![in alloc; text_of(alloc, group)] {
        Ok(groups) => Texts::new(groups),
        Err(_) => Texts::new(Vec::new(alloc)),
    }
}

/// The user of a name and of a group.
pub fn user_of(alloc: Global, words: &str) -> User {
    User {
        name: text_of(alloc, word(words, 0)),
        uid: text_of(alloc, ""),
        groups: groups_of(alloc, word(words, 1)),
    }
}

fn line_bytes(alloc: Global, text: &str) -> Bytes
    ensures { length result ≤ 4194304 }
{
    match text.as_bytes().to_vec(alloc) {
        Ok(bytes) if bytes.len() <= 4_194_304 => Bytes::new(bytes),
        _ => Bytes::new(Vec::new(alloc)),
    }
}

/// A line of that text.
pub fn line_of(alloc: Global, text: &str) -> Line {
    Line {
        bay: 0,
        number: 0,
        bytes: line_bytes(alloc, text),
    }
}
