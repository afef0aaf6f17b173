ghost use Rattle.std.specs.Prelude.{IfOk};
ghost use Rattle.front_ports.specs.Memory.{IsUnused};

use crate::links::{link_of, told};
use body_frames::Frame;
use case_rows::{bytes_of, fields, spelled};
use forward_link::{LinkAnswer, exchange};
use front_base::{Address, NoMemory};
use front_ports::{Call, Dial, MemDial, MemLink, Source};
use std::alloc::Global;
use std::io;

const TO: Address = Address {
    ip: [127, 0, 0, 1],
    port: 80,
};

fn dial_of(alloc: Global, input: &[u8], size: u32) -> Result<MemDial, NoMemory> {
    let links = vec![in alloc; link_of(alloc, input, size, 100, Vec::new(alloc))?]?;
    MemDial::new(alloc, links, Vec::new(alloc))
}

// The bytes that a link still gives, after these.
fn with_left(bytes: Vec<u8>, link: &mut MemLink) -> Vec<u8> {
    let mut bytes = bytes;
    let mut buf = [0u8; 64];
    for _ in 0..40 {
        match link.read(&mut buf) {
            Ok(size) => {
                let _ = bytes.extend_from_slice(buf.get(..size).unwrap_or_default());
            }
            Err(_) => {}
        }
    }
    bytes
}

fn whole_text(alloc: Global, status: u16, body: &[u8]) -> String {
    let body = spelled(alloc, body);
    told(alloc, format!(in alloc; "Whole {status} \"{body}\""))
}

fn streamed_text(alloc: Global, status: u16, frame: Frame, body: &[u8]) -> String {
    let body = spelled(alloc, body);
    told(
        alloc,
        format!(in alloc; "Streamed {status} {frame:?} \"{body}\""),
    )
}

// An answer in words. Of a reply that streams the bytes are those that came with its head, and then those of its link.
fn answer_text(alloc: Global, dial: &mut MemDial, answer: LinkAnswer<MemLink>) -> String {
    match answer {
        LinkAnswer::Whole { head, body } => {
            let text = whole_text(alloc, head.status, body.as_slice());
            drop(head);
            text
        }
        LinkAnswer::Streamed {
            head,
            frame,
            rest,
            link,
        } => {
            let mut link = link;
            let body = with_left(rest.into_vec(), &mut link);
            dial.done(link);
            let text = streamed_text(alloc, head.status, frame, body.as_slice());
            drop(head);
            text
        }
        LinkAnswer::DialFailed => told(alloc, String::from_str(alloc, "DialFailed")),
        LinkAnswer::BadReply => told(alloc, String::from_str(alloc, "BadReply")),
        LinkAnswer::Cut => told(alloc, String::from_str(alloc, "Cut")),
        LinkAnswer::LinkFault => told(alloc, String::from_str(alloc, "LinkFault")),
    }
}

fn exchanged(alloc: Global, dial: &mut MemDial, flags: &str) -> String {
    let head = b"GET / HTTP/1.1\r\n\r\n";
    let is_head = flags.contains("HEAD");
    let streamed = flags.contains("long");
    match exchange(alloc, dial, TO, head, b"xy", is_head, streamed) {
        Ok(answer) => answer_text(alloc, dial, answer),
        Err(_) => String::new(alloc),
    }
}

// What a call sent. What its link held is shown where it isn't what was given.
fn call_text(alloc: Global, call: &Call, held: &[u8]) -> String {
    let sent = spelled(alloc, call.sent.as_slice());
    let to = call.to;
    if call.held.as_slice() == held {
        told(alloc, format!(in alloc; "\"{sent}\" to {to:?}"))
    } else {
        told(
            alloc,
            format!(in alloc; "\"{sent}\" to {to:?}, held {:?}", call.held),
        )
    }
}

fn calls_text(alloc: Global, dial: &MemDial, held: &[u8]) -> String {
    match dial.calls() {
        Some([call]) => call_text(alloc, call, held),
        calls => told(alloc, format!(in alloc; "{calls:?}")),
    }
}

// What comes of an exchange over a link that holds these bytes, and what was sent.
fn text_by(alloc: Global, flags: &str, held: &[u8], size: u32) -> String {
    match dial_of(alloc, held, size) {
        Ok(dial) => {
            let mut dial = dial;
            let answer = exchanged(alloc, &mut dial, flags);
            let calls = calls_text(alloc, &dial, held);
            drop(dial);
            told(alloc, format!(in alloc; "{answer} for {calls}"))
        }
        Err(_) => String::new(alloc),
    }
}

// The answers as the link holds more and more of these bytes, each from the number of bytes on at which it is another one.
fn show_cuts(rt: &HostRuntime, flags: &str, input: &[u8], size: u32) -> io::Result<()> {
    let alloc = rt.alloc();
    let mut last = String::new(alloc);
    for end in 0..input.len().saturating_add(1) {
        let text = text_by(alloc, flags, input.get(..end).unwrap_or_default(), size);
        if text.as_str() != last.as_str() {
            println!(rt; "  reads of {size}, {end} bytes: {text}")?;
        }
        last = text;
    }
    Ok(())
}

/// What an exchange answers, by a row of its request (`HEAD`, `long` for one that is long-running) and of a backend's bytes,
/// wherever these end and however they are cut into reads.
pub fn show_exchange(rt: &HostRuntime, row: &str) -> io::Result<()> {
    let (flags, text) = fields(row);
    let input = bytes_of(rt.alloc(), text);
    println!(rt; "{row}")?;
    for size in [1, 7, 4096] {
        show_cuts(rt, flags, input.as_slice(), size)?;
    }
    Ok(())
}

// A dial of one link, which takes so many bytes.
fn narrow_dial(alloc: Global, room: u64) -> Result<MemDial, NoMemory> {
    let links = vec![in alloc;
        link_of(
            alloc,
            b"HTTP/1.1 204 No\r\n\r\n",
            300,
            room,
            Vec::new(alloc)
        )?,
    ]?;
    MemDial::new(alloc, links, Vec::new(alloc))
}

/// What two exchanges answer over a dial of one link, by a row of how many bytes that link takes.
pub fn show_narrow(rt: &HostRuntime, row: &str) -> io::Result<()> {
    let alloc = rt.alloc();
    match narrow_dial(alloc, row.parse().unwrap_or(0)) {
        Ok(dial) => {
            let mut dial = dial;
            let first = exchanged(alloc, &mut dial, "GET");
            let second = exchanged(alloc, &mut dial, "GET");
            drop(dial);
            println!(rt; "{row} => {first}, {second}")
        }
        Err(_) => println!(rt; "{row} => no memory"),
    }
}
