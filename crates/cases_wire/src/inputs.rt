use crate::connections::requests_from;
use crate::rows::{count_of, frame_of, input_of};
use crate::runs::{EACH_SIZE, LAST_SIZE, Runs};
use body_frames::Frame;
use case_rows::{fields, spelled};
use front_base::{Bytes, NoMemory};
use front_ports::{MemConn, Script};
use std::alloc::Global;
use wire_intake::{Intake, next_block, next_body};

// The most bytes of a body that is cut from an input.
const LIMIT: u64 = 4;

// What is read from a connection.
#[derive(Clone, Copy)]
enum Reader {
    Requests,
    Blocks,
    Body(Frame),
}

/// A connection whose first 400 reads give so many bytes at most, and the reads of these numbers fail. It takes 64 bytes.
pub fn conn_of(
    alloc: Global,
    input: Vec<u8>,
    size: u32,
    fails: Vec<u64>,
) -> Result<MemConn, NoMemory> {
    let sizes = vec![in alloc; size; 400]?;
    let script = Script {
        input: Bytes::new(input),
        room: 64,
        sizes,
        read_fails: fails,
        write_fails: Vec::new(alloc),
    };
    MemConn::new(alloc, [127, 0, 0, 1], script)
}

// Reads what comes after a body.
fn read_rest(conn: &mut MemConn, intake: &mut Intake) {
    for _ in 0..400 {
        if 1000 <= intake.as_slice().len() || intake.refill(conn).is_err() {
            break;
        }
    }
}

// A body, and what comes after it.
fn push_body(
    alloc: Global,
    out: &mut String,
    conn: &mut MemConn,
    intake: &mut Intake,
    frame: Frame,
) -> Result<(), NoMemory> {
    match next_body(alloc, conn, intake, frame, LIMIT) {
        Ok(body) => {
            read_rest(conn, intake);
            let body = spelled(alloc, body.as_slice());
            let rest = spelled(alloc, intake.as_slice());
            Ok(write!(out, "\"{body}\", then \"{rest}\"")?)
        }
        Err(stop) => Ok(write!(out, "{stop:?}")?),
    }
}

// Every block, and why no more come.
fn push_blocks(
    alloc: Global,
    out: &mut String,
    conn: &mut MemConn,
    intake: &mut Intake,
) -> Result<(), NoMemory> {
    for _ in 0..10 {
        match next_block(conn, intake) {
            Ok(length) => {
                let block = spelled(alloc, intake.as_slice().get(..length).unwrap_or_default());
                intake.skip(length.min(intake.as_slice().len()));
                write!(out, "\"{block}\", ")?;
            }
            Err(stop) => return Ok(write!(out, "{stop:?}")?),
        }
    }
    Ok(())
}

fn push_read(
    alloc: Global,
    out: &mut String,
    conn: &mut MemConn,
    reader: Reader,
) -> Result<(), NoMemory> {
    let cut = match reader {
        Reader::Requests => return requests_from(alloc, out, conn),
        Reader::Blocks => None,
        Reader::Body(frame) => Some(frame),
    };
    let mut intake = Intake::new(alloc)?;
    let shown = match cut {
        Some(frame) => push_body(alloc, out, conn, &mut intake, frame),
        None => push_blocks(alloc, out, conn, &mut intake),
    };
    drop(intake);
    shown
}

// What comes of an input in pieces of that size. Nothing where memory ran out.
fn read_by(alloc: Global, input: &[u8], size: u32, reader: Reader) -> Result<String, NoMemory> {
    let mut text = String::new(alloc);
    let input = input.to_vec(alloc)?;
    let read = match conn_of(alloc, input, size, Vec::new(alloc)) {
        Ok(mut conn) => {
            let read = push_read(alloc, &mut text, &mut conn, reader);
            drop(conn);
            read
        }
        Err(fault) => Err(fault),
    };
    match read {
        Ok(()) => Ok(text),
        Err(fault) => Err(fault),
    }
}

fn add_sizes(
    alloc: Global,
    out: &mut String,
    runs: &mut Runs,
    input: &[u8],
    reader: Reader,
) -> Result<(), NoMemory> {
    for size in 1..EACH_SIZE + 1 {
        let answer = read_by(alloc, input, size, reader)?;
        runs.add(out, size, answer.as_str())?;
    }
    let answer = read_by(alloc, input, LAST_SIZE, reader)?;
    runs.add(out, LAST_SIZE, answer.as_str())?;
    Ok(runs.end(out)?)
}

fn show_sizes(alloc: Global, out: &mut String, text: &str, reader: Reader) -> Result<(), NoMemory> {
    let input = input_of(alloc, text);
    let mut runs = Runs::new(alloc, "in pieces of");
    add_sizes(alloc, out, &mut runs, input.as_slice(), reader)
}

/// The requests of a connection, and why no more come.
pub fn show_connection(alloc: Global, out: &mut String, row: &str) -> Result<(), NoMemory> {
    show_sizes(alloc, out, row, Reader::Requests)
}

/// What is cut from an input: the body of a frame, or `blocks`.
pub fn show_cut(alloc: Global, out: &mut String, row: &str) -> Result<(), NoMemory> {
    let (kind, text) = fields(row);
    match frame_of(kind) {
        Some(frame) => show_sizes(alloc, out, text, Reader::Body(frame)),
        None => show_sizes(alloc, out, text, Reader::Blocks),
    }
}

/// The requests of a connection in pieces of one size, where the read of one number fails.
pub fn show_fault(alloc: Global, out: &mut String, row: &str) -> Result<(), NoMemory> {
    let (size, rest) = fields(row);
    let (number, text) = fields(rest);
    let fails = vec![in alloc; u64::from(count_of(number)); 1]?;
    match conn_of(alloc, input_of(alloc, text), count_of(size), fails) {
        Ok(mut conn) => {
            let shown = requests_from(alloc, out, &mut conn);
            drop(conn);
            shown
        }
        Err(fault) => Err(fault),
    }
}
