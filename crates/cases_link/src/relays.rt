use crate::links::{frame_of, link_of, told};
use body_frames::{Decoder, Frame};
use case_rows::{bytes_of, fields, spelled};
use front_base::NoMemory;
use front_ports::{MemBytes, MemLink};
use std::alloc::Global;
use std::io;
use stream_relay::{Keep, Relayed, relay};

// A relay: the body's frame, the sizes of reads, and whether the client's version is 1.0.
#[derive(Clone, Copy)]
struct Plan {
    frame: Frame,
    size: u32,
    old: bool,
}

// What a client of version 1.1 reads of chunks, and whether it is whole.
fn decoded(alloc: Global, bytes: &[u8]) -> (Vec<u8>, bool) {
    let mut body = Vec::new(alloc);
    let mut decoder = Decoder::new(Frame::Chunked, 1000);
    let mut at = 0usize;
    for _ in 0..40 {
        let rest = bytes.get(at..).unwrap_or_default();
        if let Ok(fed) = decoder.feed(rest) {
            let _ = body.extend_from_slice(rest.get(fed.from..fed.to).unwrap_or_default());
            at = at.saturating_add(fed.taken);
        }
    }
    (body, decoder.is_done())
}

// What a client gets: in chunks the body and whether it is whole, and else the bytes.
fn got_text(alloc: Global, plan: Plan, bytes: &[u8]) -> String {
    match plan.frame {
        Frame::Chunked | Frame::Close if !plan.old => {
            let (body, whole) = decoded(alloc, bytes);
            let body = spelled(alloc, body.as_slice());
            let end = if whole { "whole" } else { "cut" };
            told(alloc, format!(in alloc; "chunks of \"{body}\", {end}"))
        }
        _ => told(alloc, format!(in alloc; "\"{}\"", spelled(alloc, bytes))),
    }
}

fn kept_text(alloc: Global, keep: &Keep) -> String {
    match keep.body() {
        Some(body) => told(alloc, format!(in alloc; "\"{}\"", spelled(alloc, body))),
        None => told(alloc, String::from_str(alloc, "nothing")),
    }
}

// What comes of a relay, of whose body the first bytes came with the head.
fn relayed(
    alloc: Global,
    plan: Plan,
    first: &[u8],
    link: &mut MemLink,
    conn: &mut MemBytes,
) -> String {
    let mut keep = Keep::new(alloc, true);
    let answer = relay(alloc, link, plan.frame, first, conn, plan.old, &mut keep);
    let got = got_text(alloc, plan, conn.bytes());
    let kept = kept_text(alloc, &keep);
    drop(keep);
    told(alloc, format!(in alloc; "{answer:?}, {got}, kept {kept}"))
}

// The same to the byte, of a body that nobody wants kept.
fn written(alloc: Global, plan: Plan, link: &mut MemLink, conn: &mut MemBytes) -> String {
    let mut keep = Keep::new(alloc, false);
    let answer = relay(alloc, link, plan.frame, b"", conn, plan.old, &mut keep);
    let sent = spelled(alloc, conn.bytes());
    let kept = kept_text(alloc, &keep);
    let total = keep.total();
    drop(keep);
    told(
        alloc,
        format!(in alloc; "{answer:?}, \"{sent}\", kept {kept} of {total}"),
    )
}

// How much is kept of a body.
fn counted(alloc: Global, frame: Frame, link: &mut MemLink, conn: &mut MemBytes) -> String {
    let mut keep = Keep::new(alloc, true);
    let answer = relay(alloc, link, frame, b"", conn, false, &mut keep);
    let kept = keep.body().map(|body| body.len());
    let total = keep.total();
    drop(keep);
    told(
        alloc,
        format!(in alloc; "{answer:?}, kept {kept:?} of {total}"),
    )
}

// A link that gives these bytes, and a client with room for so many.
fn ports_of(
    alloc: Global,
    input: &[u8],
    size: u32,
    room: u64,
) -> Result<(MemLink, MemBytes), NoMemory> {
    let link = link_of(alloc, input, size, 0, Vec::new(alloc))?;
    match MemBytes::new(alloc, room, Vec::new(alloc)) {
        Ok(conn) => Ok((link, conn)),
        Err(fault) => {
            drop(link);
            Err(fault)
        }
    }
}

fn relayed_by(alloc: Global, plan: Plan, first: &[u8], after: &[u8]) -> String {
    match ports_of(alloc, after, plan.size, 1000) {
        Ok((mut link, mut conn)) => {
            let text = relayed(alloc, plan, first, &mut link, &mut conn);
            drop(link);
            drop(conn);
            text
        }
        Err(_) => String::new(alloc),
    }
}

// What comes of it as more and more of the body came with the head, each from the number of bytes on at which it is another.
fn show_cuts(rt: &HostRuntime, plan: Plan, input: &[u8]) -> io::Result<()> {
    let alloc = rt.alloc();
    let version = if plan.old { "1.0" } else { "1.1" };
    let mut last = String::new(alloc);
    for cut in 0..input.len().saturating_add(1) {
        let (first, after) = input.split_at(cut.min(input.len()));
        let text = relayed_by(alloc, plan, first, after);
        if text.as_str() != last.as_str() {
            println!(rt;
                "  to {version}, reads of {}, {cut} before: {text}",
                plan.size
            )?;
        }
        last = text;
    }
    Ok(())
}

/// What a client gets of a body, by a row of its frame and its bytes, however many of these came with the head, however the others
/// are cut into reads, and for both versions of a client.
pub fn show_relay(rt: &HostRuntime, row: &str) -> io::Result<()> {
    let (word, text) = fields(row);
    let frame = frame_of(word);
    let input = bytes_of(rt.alloc(), text);
    println!(rt; "{row}")?;
    for old in [false, true] {
        for size in [1, 3, 500] {
            show_cuts(rt, Plan { frame, size, old }, input.as_slice())?;
        }
    }
    Ok(())
}

/// The bytes that a client of version 1.1 gets, by a row of the body's frame, the size of reads and the body's bytes.
pub fn show_pieces(rt: &HostRuntime, row: &str) -> io::Result<()> {
    let alloc = rt.alloc();
    let (word, rest) = fields(row);
    let (size, text) = fields(rest);
    let plan = Plan {
        frame: frame_of(word),
        size: size.parse().unwrap_or(0),
        old: false,
    };
    match ports_of(alloc, bytes_of(alloc, text).as_slice(), plan.size, 1000) {
        Ok((mut link, mut conn)) => {
            let text = written(alloc, plan, &mut link, &mut conn);
            drop(link);
            drop(conn);
            println!(rt; "{row} => {text}")
        }
        Err(_) => println!(rt; "{row} => no memory"),
    }
}

/// How much is kept of a body of so many bytes.
pub fn show_kept(rt: &HostRuntime, row: &str) -> io::Result<()> {
    let alloc = rt.alloc();
    let size = row.parse().unwrap_or(0);
    let input = vec![in alloc; b'a'; size as usize].unwrap_or(Vec::new(alloc));
    match ports_of(alloc, input.as_slice(), 32768, size) {
        Ok((mut link, mut conn)) => {
            let text = counted(alloc, Frame::Length(size), &mut link, &mut conn);
            drop(link);
            drop(conn);
            println!(rt; "{row} => {text}")
        }
        Err(_) => println!(rt; "{row} => no memory"),
    }
}

// The number of a call that fails, or none.
fn fails_of(alloc: Global, word: &str) -> Vec<u64> {
    let mut fails = Vec::new(alloc);
    if let Ok(number) = word.parse() {
        let _ = fails.push(number);
    }
    fails
}

// The client, which fails at the writes of these numbers, beside the link, which fails at the reads.
fn failing_ports(
    alloc: Global,
    size: u32,
    reads: Vec<u64>,
    writes: Vec<u64>,
) -> Result<(MemLink, MemBytes), NoMemory> {
    let link = link_of(alloc, b"hello", size, 0, reads)?;
    match MemBytes::new(alloc, 1000, writes) {
        Ok(conn) => Ok((link, conn)),
        Err(fault) => {
            drop(link);
            Err(fault)
        }
    }
}

/// What a client gets of a body of five bytes in reads of two, by a row of the read that fails and of the write that fails.
pub fn show_fault(rt: &HostRuntime, row: &str) -> io::Result<()> {
    let alloc = rt.alloc();
    let (reads, writes) = fields(row);
    let plan = Plan {
        frame: Frame::Close,
        size: 2,
        old: false,
    };
    let (reads, writes) = (fails_of(alloc, reads), fails_of(alloc, writes));
    match failing_ports(alloc, plan.size, reads, writes) {
        Ok((mut link, mut conn)) => {
            let text = written(alloc, plan, &mut link, &mut conn);
            drop(link);
            drop(conn);
            println!(rt; "{row} => {text}")
        }
        Err(_) => println!(rt; "{row} => no memory"),
    }
}
