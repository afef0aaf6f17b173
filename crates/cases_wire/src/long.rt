// Long inputs: what stands before and after a piece that comes so many times.
use crate::bodies::decoded;
use crate::connections::count_from;
use crate::inputs::conn_of;
use crate::rows::{count_of, input_of};
use body_frames::Frame;
use case_rows::fields;
use front_base::NoMemory;
use http_head::{HeadAnswer, read_request, read_status};
use std::alloc::{AllocError, Global};

fn push_times(
    text: &mut Vec<u8>,
    piece: &[u8],
    count: u32,
    after: &[u8],
) -> Result<(), AllocError> {
    for _ in 0..count {
        text.extend_from_slice(piece)?;
    }
    text.extend_from_slice(after)
}

// The bytes that a row spells. Nothing where memory ran out.
fn repeated(alloc: Global, row: &str) -> Vec<u8> {
    let (before, rest) = fields(row);
    let (count, rest) = fields(rest);
    let (piece, after) = fields(rest);
    let mut text = input_of(alloc, before);
    let piece = input_of(alloc, piece);
    let after = input_of(alloc, after);
    match push_times(
        &mut text,
        piece.as_slice(),
        count_of(count),
        after.as_slice(),
    ) {
        Ok(()) => text,
        Err(_) => Vec::new(alloc),
    }
}

fn push_head(alloc: Global, out: &mut String, bytes: &[u8]) -> Result<(), NoMemory> {
    match read_request(alloc, bytes) {
        Ok(HeadAnswer::Whole { head, length }) => {
            let headers = head.headers.as_slice().len();
            drop(head);
            Ok(write!(out, "Whole, {length} bytes, {headers} headers")?)
        }
        Ok(HeadAnswer::More) => Ok(out.push_str("More")?),
        Ok(HeadAnswer::BadHead) => Ok(out.push_str("BadHead")?),
        Ok(HeadAnswer::TooLarge) => Ok(out.push_str("TooLarge")?),
        Err(fault) => Err(fault),
    }
}

fn push_count(alloc: Global, out: &mut String, input: Vec<u8>) -> Result<(), NoMemory> {
    match conn_of(alloc, input, 5000, Vec::new(alloc)) {
        Ok(mut conn) => {
            let shown = count_from(alloc, out, &mut conn);
            drop(conn);
            shown
        }
        Err(fault) => Err(fault),
    }
}

fn push_chunked(alloc: Global, out: &mut String, text: &[u8]) -> Result<(), NoMemory> {
    match decoded(alloc, Frame::Chunked, 20, text, 100) {
        Ok(answer) => Ok(out.push_str(answer.as_str())?),
        Err(_) => Err(NoMemory),
    }
}

/// What comes of a long head of a request or of a reply, of a body in chunks, or of a connection.
pub fn show_long(alloc: Global, out: &mut String, row: &str) -> Result<(), NoMemory> {
    let (kind, rest) = fields(row);
    let input = repeated(alloc, rest);
    match kind {
        "request" => push_head(alloc, out, input.as_slice()),
        "reply" => Ok(write!(out, "{:?}", read_status(input.as_slice()))?),
        "chunked" => push_chunked(alloc, out, input.as_slice()),
        _ => push_count(alloc, out, input),
    }
}
