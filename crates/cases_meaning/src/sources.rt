use case_rows::{bytes_of, read_cases};
use front_base::Text;
use std::alloc::Global;

/// A word of a row, where `-` stands for the empty one.
pub fn word(text: &str) -> &str {
    if text == "-" { "" } else { text }
}

/// A text of its own, empty where memory refuses it.
pub fn text_of(alloc: Global, text: &str) -> Text {
    match Text::copy_of(alloc, text) {
        Ok(text) => text,
        Err(_) => Text::new(String::new(alloc)),
    }
}

/// The bytes that a field stands for: those of the file of that name, or those that it spells.
pub fn source_of(rt: &HostRuntime, field: &str) -> Vec<u8> {
    let alloc = rt.alloc();
    if field.ends_with(".csv") || field.ends_with(".json") {
        match read_cases(rt, field) {
            Ok(text) => text.into_bytes(),
            Err(_) => Vec::new(alloc),
        }
    } else {
        bytes_of(alloc, word(field))
    }
}
