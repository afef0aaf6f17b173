use crate::rows::{frame_of, input_of};
use crate::runs::Runs;
use body_frames::{BodyFault, Decoder, Frame, chunk_frame, last_frame};
use case_rows::{fields, spelled};
use front_base::NoMemory;
use std::alloc::{AllocError, Global};

// The most bytes of the bodies of rows.
const LIMIT: u64 = 20;

// Feeds one piece, and takes up the bytes of the body.
fn feed_all(
    decoder: &mut Decoder,
    piece: &[u8],
    body: &mut Vec<u8>,
) -> Result<Option<BodyFault>, AllocError> {
    let mut at = 0;
    for _ in 0..piece.len() {
        let rest = piece.get(at..).unwrap_or_default();
        match decoder.feed(rest) {
            Ok(fed) => {
                body.extend_from_slice(rest.get(fed.from..fed.to).unwrap_or_default())?;
                at = fed.taken.saturating_add(at);
            }
            Err(fault) => return Ok(Some(fault)),
        }
    }
    Ok(None)
}

fn feed_pieces(
    decoder: &mut Decoder,
    text: &[u8],
    size: usize,
    body: &mut Vec<u8>,
) -> Result<Option<BodyFault>, AllocError> {
    for piece in text.chunks(size.max(1)) {
        if let Some(fault) = feed_all(decoder, piece, body)? {
            return Ok(Some(fault));
        }
    }
    Ok(None)
}

fn ended(
    alloc: Global,
    decoder: &Decoder,
    body: &[u8],
    fault: Option<BodyFault>,
) -> Result<String, AllocError> {
    let body = spelled(alloc, body);
    match fault {
        Some(fault) => format!(in alloc; "\"{body}\" {fault:?}"),
        None if decoder.ends_here() => format!(in alloc; "\"{body}\" Whole"),
        None => format!(in alloc; "\"{body}\" More"),
    }
}

/// The body that comes in pieces of one size, and how it ends.
pub fn decoded(
    alloc: Global,
    frame: Frame,
    limit: u64,
    text: &[u8],
    size: usize,
) -> Result<String, AllocError> {
    let mut decoder = Decoder::new(frame, limit);
    let mut body = Vec::new(alloc);
    match feed_pieces(&mut decoder, text, size, &mut body) {
        Ok(fault) => ended(alloc, &decoder, body.as_slice(), fault),
        Err(error) => Err(error),
    }
}

fn add_sizes(
    alloc: Global,
    out: &mut String,
    runs: &mut Runs,
    frame: Frame,
    limit: u64,
    text: &[u8],
) -> Result<(), AllocError> {
    for size in 1..text.len().saturating_add(1) {
        let answer = decoded(alloc, frame, limit, text, size)?;
        runs.add(
            out,
            u32::try_from(size).unwrap_or(u32::MAX),
            answer.as_str(),
        )?;
    }
    runs.end(out)
}

fn show_sizes(
    alloc: Global,
    out: &mut String,
    frame: Frame,
    limit: u64,
    text: &[u8],
) -> Result<(), NoMemory> {
    let mut runs = Runs::new(alloc, "in pieces of");
    Ok(add_sizes(alloc, out, &mut runs, frame, limit, text)?)
}

/// The body in a frame, in pieces of each size.
pub fn show_body(alloc: Global, out: &mut String, row: &str) -> Result<(), NoMemory> {
    let (frame, text) = fields(row);
    let input = input_of(alloc, text);
    match frame_of(frame) {
        Some(frame) => show_sizes(alloc, out, frame, LIMIT, input.as_slice()),
        None => Ok(out.push_str("no frame")?),
    }
}

fn push_feeds(
    alloc: Global,
    out: &mut String,
    decoder: &mut Decoder,
    pieces: &str,
) -> Result<(), AllocError> {
    for piece in pieces.split(" | ") {
        let piece = input_of(alloc, piece);
        write!(out, "{:?}, ", decoder.feed(piece.as_slice()))?;
    }
    write!(
        out,
        "done {}, ends here {}",
        decoder.is_done(),
        decoder.ends_here()
    )
}

/// What each feed of one decoder answers.
pub fn show_feeds(alloc: Global, out: &mut String, row: &str) -> Result<(), NoMemory> {
    let (frame, pieces) = fields(row);
    match frame_of(frame) {
        Some(frame) => {
            let mut decoder = Decoder::new(frame, LIMIT);
            Ok(push_feeds(alloc, out, &mut decoder, pieces)?)
        }
        None => Ok(out.push_str("no frame")?),
    }
}

// A body of one chunk.
fn one_chunk(alloc: Global, piece: &[u8]) -> Result<Vec<u8>, NoMemory> {
    if piece.is_empty() {
        return Ok(Vec::new(alloc));
    }
    let mut text = chunk_frame(alloc, piece)?.into_vec();
    match text.extend_from_slice(&last_frame()) {
        Ok(()) => Ok(text),
        Err(_) => Err(NoMemory),
    }
}

fn push_chunk(alloc: Global, out: &mut String, text: &[u8], limit: u64) -> Result<(), NoMemory> {
    out.push_str(spelled(alloc, text).as_str())?;
    out.push_str(" => ")?;
    show_sizes(alloc, out, Frame::Chunked, limit, text)
}

/// A piece as the one chunk of a body, and that body read back.
pub fn show_chunk(alloc: Global, out: &mut String, row: &str) -> Result<(), NoMemory> {
    let piece = input_of(alloc, row);
    match one_chunk(alloc, piece.as_slice()) {
        Ok(text) => push_chunk(alloc, out, text.as_slice(), piece.len() as u64),
        Err(fault) => Err(fault),
    }
}
