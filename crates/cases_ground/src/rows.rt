// Fields of rows.
use case_rows::bytes_of;
use std::alloc::Global;

/// The bytes of a field.
pub fn input_of(alloc: Global, field: &str) -> Vec<u8> {
    match field {
        "-" => Vec::new(alloc),
        _ => bytes_of(alloc, field),
    }
}

/// The text of a field. Nothing where its bytes are no UTF-8.
pub fn text_of(alloc: Global, field: &str) -> String {
    match String::from_utf8(input_of(alloc, field)) {
        Ok(text) => text,
        Err(_) => String::new(alloc),
    }
}
