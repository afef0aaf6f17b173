// Fields of rows.
use body_frames::Frame;
use case_rows::bytes_of;
use front_base::number_of;
use std::alloc::Global;

/// The bytes of a field.
pub fn input_of(alloc: Global, field: &str) -> Vec<u8> {
    match field {
        "-" => Vec::new(alloc),
        _ => bytes_of(alloc, field),
    }
}

/// The number of a field, or the greatest.
pub fn count_of(field: &str) -> u32 {
    match number_of(field.as_bytes()) {
        Some(number) => u32::try_from(number).unwrap_or(u32::MAX),
        None => u32::MAX,
    }
}

/// The frame of a field: a number is that of a length.
pub fn frame_of(field: &str) -> Option<Frame> {
    match field {
        "none" => Some(Frame::NoBody),
        "chunked" => Some(Frame::Chunked),
        "close" => Some(Frame::Close),
        _ => match number_of(field.as_bytes()) {
            Some(length) => Some(Frame::Length(length)),
            None => None,
        },
    }
}
