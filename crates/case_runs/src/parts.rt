// What the plant of a run makes its handles of.
ghost use Rattle.std.specs.Prelude.{IfOk};
ghost use Rattle.std.specs.List.{All};
ghost use Rattle.front_plants.specs.Unused.{IsUnusedDial, IsUnusedDoor, IsUnusedSink};

use crate::links::{ROOM, push_link, script};
use crate::posts::webhook_of;
use crate::world::World;
use case_rows::{bytes_of, fields, is_row};
use front_base::{Moment, NoMemory};
use front_plants::{MemParts, NotesRoom};
use front_ports::{MemBytes, MemConn, MemDial, MemDoor};
use std::alloc::{AllocError, Global};

// 2025-01-01 00:00:00 UTC, in microseconds.
const START: u64 = 1_735_689_600_000_000;

fn push_conn(alloc: Global, conns: &mut Vec<MemConn>, sent: &str) -> Result<(), NoMemory> {
    let input = script(alloc, bytes_of(alloc, sent), Vec::new(alloc));
    let conn = MemConn::new(alloc, [10, 0, 0, 7], input)?;
    Ok(conns.push(conn)?)
}

// A door that gives a connection for each row, with what its client sends: the first field.
fn door_of(alloc: Global, requests: &str) -> Result<MemDoor, NoMemory>
    ensures { IfOk result IsUnusedDoor }
{
    let mut conns = Vec::new(alloc);
    for row in requests.lines() {
        if is_row(row) {
            push_conn(alloc, &mut conns, fields(row).0)?;
        }
    }
    MemDoor::new(alloc, conns, Vec::new(alloc))
}

// A dial whose links give the replies of backends: the second field of each row that has one.
fn backend_of(alloc: Global, requests: &str) -> Result<MemDial, NoMemory>
    ensures { IfOk result IsUnusedDial }
{
    let mut links = Vec::new(alloc);
    for row in requests.lines() {
        if let Some((_, reply)) = row.split_once(" | ") {
            push_link(alloc, &mut links, reply, Vec::new(alloc))?;
        }
    }
    MemDial::new(alloc, links, Vec::new(alloc))
}

fn numbers_of(alloc: Global, text: &str) -> Result<Vec<u64>, AllocError> {
    let mut numbers = Vec::new(alloc);
    for word in text.split(' ') {
        if let Ok(number) = word.parse() {
            numbers.push(number)?;
        }
    }
    Ok(numbers)
}

fn log_of(alloc: Global, fails: &str) -> Result<MemBytes, NoMemory>
    ensures { IfOk result IsUnusedSink }
{
    let fails = numbers_of(alloc, fails)?;
    MemBytes::new(alloc, ROOM, fails)
}

// One door, none where memory refuses it.
fn doors_of(alloc: Global, requests: &str) -> Vec<MemDoor>
    ensures { All IsUnusedDoor result.items }
{
    let Ok(door) = door_of(alloc, requests) else {
        return Vec::new(alloc);
    };
    match vec![in alloc; door] {
        Ok(doors) => doors,
        Err(_) => Vec::new(alloc),
    }
}

// The same of a dial.
fn one_dial(alloc: Global, dial: Result<MemDial, NoMemory>) -> Vec<MemDial>
    requires { IfOk dial IsUnusedDial }
    ensures { All IsUnusedDial result.items }
{
    let Ok(dial) = dial else {
        return Vec::new(alloc);
    };
    match vec![in alloc; dial] {
        Ok(dials) => dials,
        Err(_) => Vec::new(alloc),
    }
}

// The same of a log.
fn logs_of(alloc: Global, fails: &str) -> Vec<MemBytes>
    ensures { All IsUnusedSink result.items }
{
    let Ok(log) = log_of(alloc, fails) else {
        return Vec::new(alloc);
    };
    match vec![in alloc; log] {
        Ok(logs) => logs,
        Err(_) => Vec::new(alloc),
    }
}

fn allots_of(alloc: Global, allotment: u64) -> Vec<u64> {
    let mut allots = Vec::new(alloc);
    let _pushed = allots.push(allotment);
    allots
}

/// The parts of a plant with one bay. One that memory refuses is left out.
pub fn parts_of(alloc: Global, world: &World) -> MemParts
    ensures doors { All IsUnusedDoor result.doors.items }
    ensures dials { All IsUnusedDial result.dials.items }
    ensures logs { All IsUnusedSink result.logs.items }
    ensures hooks { All IsUnusedDial result.hooks.items }
{
    MemParts {
        boot: 1,
        allots: allots_of(alloc, world.allotment),
        doors: doors_of(alloc, world.requests),
        dials: one_dial(alloc, backend_of(alloc, world.requests)),
        logs: logs_of(alloc, world.log_fails),
        hooks: one_dial(alloc, webhook_of(alloc, world.posts)),
        start: Moment::new(START).unwrap_or(Moment::epoch()),
        step: world.step,
        room: NotesRoom {
            notes: 100,
            lines: 1_000,
            bytes: ROOM,
        },
        fails: Vec::new(alloc),
    }
}
