// Doors and dials in memory: the connections and the links that they give, also where they fail.
ghost use Rattle.std.specs.List.{All};
ghost use Rattle.front_ports.specs.Memory.{IsUnused};

use crate::ports::numbers_of;
use crate::rows::input_of;
use case_rows::{fields, spelled};
use front_base::{Address, Bytes, NoMemory};
use front_ports::{
    ByteSink, Conn, Dial, Door, MemConn, MemDial, MemDoor, MemLink, PortFault, Script, Source,
    write_all,
};
use std::alloc::{AllocError, Global};

// A script of this input, whose reads of these numbers fail.
fn script(alloc: Global, input: &str, read_fails: &str) -> Script {
    Script {
        input: Bytes::new(input_of(alloc, input)),
        room: 8,
        sizes: Vec::new(alloc),
        read_fails: numbers_of(alloc, read_fails),
        write_fails: Vec::new(alloc),
    }
}

// Takes the next connection, reads from it, answers it and hands it back. Says who its peer is.
fn serve_next<D: Door>(door: &mut D, answer: &[u8]) -> Result<Option<[u8; 4]>, PortFault> {
    match door.next()? {
        None => Ok(None),
        Some(mut conn) => {
            let peer = conn.peer();
            let read = conn.read(&mut [0u8; 8]);
            let written = write_all(&mut conn, answer);
            door.done(conn);
            read?;
            written?;
            Ok(Some(peer))
        }
    }
}

// Adds a connection of this peer: its input, and which reads fail.
fn push_conn(
    alloc: Global,
    conns: &mut Vec<MemConn>,
    last: u8,
    field: &str,
) -> Result<(), NoMemory> {
    let (input, fails) = field.split_once(' ').unwrap_or((field, "-"));
    let conn = MemConn::new(alloc, [10, 0, 0, last], script(alloc, input, fails))?;
    Ok(conns.push(conn)?)
}

fn door_of(alloc: Global, row: &str) -> Result<MemDoor, NoMemory> {
    let (fails, rest) = fields(row);
    let mut conns = Vec::new(alloc);
    let mut last = 0u8;
    for field in rest.split(" | ") {
        last = last.saturating_add(1);
        push_conn(alloc, &mut conns, last, field)?;
    }
    MemDoor::new(alloc, conns, numbers_of(alloc, fails))
}

fn push_served(out: &mut String, door: &mut MemDoor) -> Result<(), AllocError> {
    for _ in 0..5 {
        write!(out, "[{:?}]", serve_next(door, b"yes"))?;
    }
    write!(out, " {:?}", door.given())
}

/// What comes of five calls of a door, and what it notes of its connections.
pub fn show_door(alloc: Global, out: &mut String, row: &str) -> Result<(), NoMemory> {
    let mut door = door_of(alloc, row)?;
    let shown = push_served(out, &mut door);
    drop(door);
    Ok(shown?)
}

const BACKEND: Address = Address {
    ip: [10, 1, 0, 1],
    port: 443,
};

// Opens a link, sends a text, reads the first bytes of the answer and hands the link back.
fn ask<D: Dial>(dial: &mut D, text: &[u8]) -> Result<[u8; 3], PortFault> {
    let mut link = dial.dial(BACKEND, false)?;
    let mut answer = [0; 3];
    let sent = write_all(&mut link, text);
    let got = link.read(&mut answer);
    dial.done(link);
    sent?;
    got?;
    Ok(answer)
}

// Opens two links, writes to each, and hands the second one back first. What the writes answer.
fn crossed<D: Dial>(dial: &mut D) -> Option<[Result<usize, PortFault>; 2]> {
    let Ok(mut first) = dial.dial(BACKEND, false) else {
        return None;
    };
    let Ok(mut second) = dial.dial(BACKEND, false) else {
        dial.done(first);
        return None;
    };
    let written = [first.write(b"a"), second.write(b"b")];
    dial.done(second);
    dial.done(first);
    Some(written)
}

fn push_link(alloc: Global, links: &mut Vec<MemLink>, input: &str) -> Result<(), NoMemory>
    requires { All IsUnused links.old.items }
    ensures { All IsUnused links.new.items }
{
    let link = MemLink::new(alloc, script(alloc, input, "-"))?;
    Ok(links.push(link)?)
}

fn dial_of(alloc: Global, row: &str) -> Result<MemDial, NoMemory> {
    let (fails, inputs) = fields(row);
    let mut links = Vec::new(alloc);
    for input in inputs.split(' ') {
        push_link(alloc, &mut links, input)?;
    }
    MemDial::new(alloc, links, numbers_of(alloc, fails))
}

fn push_ask(alloc: Global, out: &mut String, dial: &mut MemDial) -> Result<(), AllocError> {
    match ask(dial, b"get") {
        Ok(answer) => write!(out, "[{}]", spelled(alloc, &answer).as_str()),
        Err(fault) => write!(out, "[{fault:?}]"),
    }
}

fn push_asks(
    alloc: Global,
    out: &mut String,
    dial: &mut MemDial,
    steps: &str,
) -> Result<(), AllocError> {
    for step in steps.split(' ') {
        match step {
            "ask" => push_ask(alloc, out, dial)?,
            "cross" => write!(out, "[{:?}]", crossed(dial))?,
            _ => write!(out, "[{:?}]", dial.calls())?,
        }
    }
    Ok(())
}

/// What asking over the links of a dial comes to, and what the dial notes of its calls.
pub fn show_dial(alloc: Global, out: &mut String, row: &str) -> Result<(), NoMemory> {
    let (steps, rest) = fields(row);
    let mut dial = dial_of(alloc, rest)?;
    let shown = push_asks(alloc, out, &mut dial, steps);
    drop(dial);
    Ok(shown?)
}
