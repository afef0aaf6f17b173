// What the plant of a run makes its handles of.
ghost use Rattle.std.specs.Prelude.{IfOk};
ghost use Rattle.std.specs.List.{All};
ghost use Rattle.front_plants.specs.Unused.{IsUnusedDial, IsUnusedDoor, IsUnusedSink};
ghost use Rattle.front_ports.specs.Memory.{IsUnused};

use crate::script::{
    allotment_of, client_bytes, client_most, fails, link_fails, port_fails, sizes_of, told_by,
};
use case_rows::bytes_of;
use front_base::{Bytes, Moment, NoMemory};
use front_plants::{MemParts, NotesRoom};
use front_ports::{MemBytes, MemConn, MemDial, MemDoor, MemLink, Script};
use std::alloc::Global;

// How many bytes a port takes.
const ROOM: u64 = 16_384;

// 2025-01-01 00:00:00 UTC, in microseconds.
const START: u64 = 1_735_689_600_000_000;

// The link of the next call of that kind, which gives that reply in reads of at most so many bytes.
fn push_link(
    alloc: Global,
    links: &mut Vec<MemLink>,
    row: &str,
    name: &str,
    most: &str,
    reply: &str,
) -> Result<(), NoMemory>
    requires { All IsUnused links.old.items }
    ensures { All IsUnused links.new.items }
{
    let number = links.len().saturating_add(1);
    let script = Script {
        input: Bytes::new(bytes_of(alloc, reply)),
        room: ROOM,
        sizes: sizes_of(alloc, most),
        read_fails: link_fails(alloc, row, name, number, "read"),
        write_fails: link_fails(alloc, row, name, number, "write"),
    };
    let link = MemLink::new(alloc, script)?;
    Ok(links.push(link)?)
}

// A dial whose links give the replies of the lines of that name, and whose calls of these numbers fail.
fn dial_of(
    alloc: Global,
    script: &str,
    row: &str,
    name: &str,
    fails: Vec<u64>,
) -> Result<MemDial, NoMemory>
    ensures { IfOk result IsUnusedDial }
{
    let mut links = Vec::new(alloc);
    for line in script.lines() {
        if let Some((most, reply)) = told_by(line, name) {
            push_link(alloc, &mut links, row, name, most, reply)?;
        }
    }
    MemDial::new(alloc, links, fails)
}

// A client of the script, who comes from that address.
fn push_client(
    alloc: Global,
    conns: &mut Vec<MemConn>,
    script: &str,
    row: &str,
    client: &str,
) -> Result<(), NoMemory> {
    let Some(most) = client_most(script, client) else {
        return Ok(());
    };
    let ports = Script {
        input: Bytes::new(client_bytes(alloc, script, row, client)),
        room: ROOM,
        sizes: sizes_of(alloc, most),
        read_fails: port_fails(alloc, row, client, "read"),
        write_fails: port_fails(alloc, row, client, "write"),
    };
    let conn = MemConn::new(alloc, [10, 0, 0, 7], ports)?;
    Ok(conns.push(conn)?)
}

// A door that gives these clients, as far as the script has them, and whose calls of these numbers fail.
fn door_of(
    alloc: Global,
    script: &str,
    row: &str,
    clients: &[&str],
    fails: Vec<u64>,
) -> Result<MemDoor, NoMemory>
    ensures { IfOk result IsUnusedDoor }
{
    let mut conns = Vec::new(alloc);
    for client in clients {
        push_client(alloc, &mut conns, script, row, client)?;
    }
    MemDoor::new(alloc, conns, fails)
}

fn log_of(alloc: Global, fails: Vec<u64>) -> Result<MemBytes, NoMemory>
    ensures { IfOk result IsUnusedSink }
{
    MemBytes::new(alloc, ROOM, fails)
}

// The doors of two bays. No other bay asks for the second one.
fn doors_of(alloc: Global, script: &str, row: &str) -> Result<Vec<MemDoor>, NoMemory>
    ensures { IfOk result (λ doors. All IsUnusedDoor doors.items) }
{
    let door = door_of(
        alloc,
        script,
        row,
        &["client", "second"],
        fails(alloc, row, "door"),
    )?;
    let other = door_of(
        alloc,
        script,
        row,
        &["other"],
        fails(alloc, row, "other-door"),
    )?;
    Ok(vec![in alloc; door, other]?)
}

fn dials_of(alloc: Global, script: &str, row: &str) -> Result<Vec<MemDial>, NoMemory>
    ensures { IfOk result (λ dials. All IsUnusedDial dials.items) }
{
    let dial = dial_of(alloc, script, row, "link", fails(alloc, row, "dial"))?;
    let other = dial_of(
        alloc,
        script,
        row,
        "other-link",
        fails(alloc, row, "other-dial"),
    )?;
    Ok(vec![in alloc; dial, other]?)
}

fn logs_of(alloc: Global, row: &str) -> Result<Vec<MemBytes>, NoMemory>
    ensures { IfOk result (λ logs. All IsUnusedSink logs.items) }
{
    let log = log_of(alloc, fails(alloc, row, "log-write"))?;
    let other = log_of(alloc, fails(alloc, row, "other-log-write"))?;
    Ok(vec![in alloc; log, other]?)
}

/// The parts of a plant with one bay or two, whose queue has room for as many lines of each as the script says, 7 where it doesn't.
pub fn parts_of(alloc: Global, script: &str, row: &str) -> Result<MemParts, NoMemory>
    ensures doors { IfOk result (λ parts. All IsUnusedDoor parts.doors.items) }
    ensures dials { IfOk result (λ parts. All IsUnusedDial parts.dials.items) }
    ensures logs { IfOk result (λ parts. All IsUnusedSink parts.logs.items) }
    ensures hooks { IfOk result (λ parts. All IsUnusedDial parts.hooks.items) }
{
    let room = allotment_of(script);
    let hook = dial_of(alloc, script, row, "hook", fails(alloc, row, "hook-dial"))?;
    Ok(MemParts {
        boot: 1,
        allots: vec![in alloc; room, room]?,
        doors: doors_of(alloc, script, row)?,
        dials: dials_of(alloc, script, row)?,
        logs: logs_of(alloc, row)?,
        hooks: vec![in alloc; hook]?,
        start: Moment::new(START).unwrap_or(Moment::epoch()),
        step: 0,
        room: NotesRoom {
            notes: 16,
            lines: 64,
            bytes: ROOM,
        },
        fails: fails(alloc, row, "plant"),
    })
}
