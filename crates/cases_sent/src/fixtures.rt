// Values of rows. A text that memory refuses comes out empty, so that the output of its case is a wrong one.
use front_base::{Text, Texts, User};
use std::alloc::Global;

/// The field of that number of a row, from 0.
pub fn field(row: &str, number: usize) -> &str {
    row.split(" | ").nth(number).unwrap_or("")
}

pub fn text_of(alloc: Global, text: &str) -> Text {
    match Text::copy_of(alloc, text) {
        Ok(text) => text,
        Err(_) => Text::new(String::new(alloc)),
    }
}

/// The user `ann`.
pub fn ann(alloc: Global) -> User {
    User {
        name: text_of(alloc, "ann"),
        uid: text_of(alloc, ""),
        groups: Texts::new(Vec::new(alloc)),
    }
}
