ghost use Rattle.std.specs.Prelude.{◌≢◌};

use crate::fixtures::{field, shown, spelled_text, text_of, user_of, word};
use case_rows::bytes_of;
use event_text::{line, objects_exceed, push_line, stripped_line};
use front_base::{AuditId, Bytes, Info, Level, Moment, NoMemory, Stage, User};
use stage_event::{Event, Facts, Kept, event_at, event_from, kept, reply_due, request_due};
use std::alloc::Global;
use std::io;
use truncate_backend::{Fit, fit};

// A request for the resource that the words name, by its version, namespace, resource and name.
fn info_of(alloc: Global, verb: &str, words: &str) -> Info {
    Info {
        resource_request: true,
        path: text_of(alloc, "/api"),
        verb: text_of(alloc, verb),
        group: text_of(alloc, ""),
        version: text_of(alloc, word(words, 0)),
        namespace: text_of(alloc, word(words, 1)),
        resource: text_of(alloc, word(words, 2)),
        subresource: text_of(alloc, ""),
        name: text_of(alloc, word(words, 3)),
    }
}

// What is kept of a body: `-` is one that nobody asked for.
fn kept_of(alloc: Global, body: &str) -> Kept {
    if body == "-" {
        return Kept::NotAsked;
    }
    match kept(alloc, bytes_of(alloc, body).as_slice(), false) {
        Ok(kept) => kept,
        Err(_) => Kept::NotAsked,
    }
}

// So many seconds after 2025-01-01T00:00:00.123456Z.
fn after(seconds: u8) -> Moment {
    let micros = 1_735_689_600_123_456 + u64::from(seconds) * 1_000_000;
    Moment::new(micros).unwrap_or(Moment::epoch())
}

// The user that a row names to act as, if it names one.
fn acting_of(alloc: Global, words: &str) -> Option<User> {
    if words == "-" {
        return None;
    }
    Some(user_of(alloc, words))
}

// Where a request acts as another user, it comes from another address.
fn peer_of(words: &str) -> [u8; 4] {
    if words == "-" {
        return [127, 0, 0, 1];
    }
    [10, 0, 255, 7]
}

// What is known of the request of a row and its reply.
fn facts_of(alloc: Global, row: &str) -> Facts {
    let first = field(row, 0);
    Facts {
        id: AuditId {
            boot: 1,
            bay: 2,
            number: 3,
        },
        target: text_of(alloc, word(first, 4)),
        info: info_of(alloc, word(first, 2), field(row, 1)),
        user: user_of(alloc, field(row, 2)),
        acting: acting_of(alloc, field(row, 3)),
        peer: peer_of(field(row, 3)),
        agent: spelled_text(alloc, field(row, 4)),
        status: word(first, 3).parse().unwrap_or(0),
        request: kept_of(alloc, field(row, 5)),
        reply: kept_of(alloc, field(row, 6)),
        received: after(0),
        started: after(1),
        complete: after(2),
    }
}

// The line without the objects, and the whole line after it.
fn both_lines(alloc: Global, event: &Event) -> Result<Vec<u8>, NoMemory> {
    let mut out = stripped_line(alloc, event)?.into_vec();
    out.extend_from_slice(b"\n  ")?;
    push_line(&mut out, event)?;
    Ok(out)
}

fn length_of(alloc: Global, event: &Event) -> usize {
    match line(alloc, event) {
        Ok(line) => line.as_slice().len(),
        Err(_) => 0,
    }
}

fn show_lines(rt: &HostRuntime, event: &Event) -> io::Result<()> {
    let alloc = rt.alloc();
    println!(rt; "  {} bytes", length_of(alloc, event))?;
    match both_lines(alloc, event) {
        Ok(lines) => println!(rt; "  {}", shown(lines.as_slice())),
        Err(_) => println!(rt; "  out of memory"),
    }
}

fn show_line(rt: &HostRuntime, what: &str, line: &Bytes) -> io::Result<()> {
    let line = line.as_slice();
    println!(rt; "{what} {} {}", line.len(), shown(line))
}

// Whether the objects alone have more than `max` bytes, and what fits.
fn show_fit(rt: &HostRuntime, event: &Event, max: u64) -> io::Result<()> {
    print!(rt; "  {max}: {} ", objects_exceed(event, max))?;
    match fit(rt.alloc(), event, max) {
        Ok(Fit::Whole(line)) => show_line(rt, "whole", &line),
        Ok(Fit::Stripped(line)) => show_line(rt, "stripped", &line),
        Ok(Fit::TooLarge { size }) => println!(rt; "too large {size}"),
        Err(_) => println!(rt; "out of memory"),
    }
}

fn show_fits(rt: &HostRuntime, event: &Event, maxima: &str) -> io::Result<()> {
    for max in maxima.split_whitespace() {
        show_fit(rt, event, max.parse().unwrap_or(0))?;
    }
    Ok(())
}

fn show_due(rt: &HostRuntime, level: Level, info: &Info) -> io::Result<()> {
    println!(rt;
        "  due: request {}, reply {}",
        request_due(level, info),
        reply_due(level, info)
    )
}

fn show_text(rt: &HostRuntime, row: &str, event: &Event) -> io::Result<()> {
    show_lines(rt, event)?;
    show_fits(rt, event, field(row, 7))
}

fn show_own(rt: &HostRuntime, row: &str, event: Event) -> io::Result<()> {
    let shown = show_text(rt, row, &event);
    drop(event);
    shown
}

// The event that copies the facts.
fn show_copied(
    rt: &HostRuntime,
    row: &str,
    stage: Stage,
    level: Level,
    facts: &Facts,
) -> io::Result<()>
    requires { (level ≢ Level.None) × (stage ≢ Stage.Panic) }
{
    match event_at(rt.alloc(), stage, level, facts) {
        Ok(event) => show_own(rt, row, event),
        Err(_) => println!(rt; "  out of memory"),
    }
}

// The event that copies the facts, and then the one that they become.
fn show_recorded(rt: &HostRuntime, row: &str, stage: Stage, level: Level) -> io::Result<()>
    requires { (level ≢ Level.None) × (stage ≢ Stage.Panic) }
{
    let facts = facts_of(rt.alloc(), row);
    let due = show_due(rt, level, &facts.info);
    let copied = show_copied(rt, row, stage, level, &facts);
    let moved = show_own(rt, row, event_from(stage, level, facts));
    due.and(copied).and(moved)
}

fn show_stage(rt: &HostRuntime, row: &str, stage: Stage, level: Level) -> io::Result<()> {
    match (level, stage) {
        (Level::None, _) | (_, Stage::Panic) => println!(rt; "  no event"),
        _ => show_recorded(rt, row, stage, level),
    }
}

/// The event of a request at a stage, and its lines. A row has the stage, the level, the verb, the status and the target; the
/// object; the user; whom they act as; the agent; the bodies of the request and the reply; and the maxima of lines.
pub fn show_event(rt: &HostRuntime, row: &str) -> io::Result<()> {
    let first = field(row, 0);
    match (
        Stage::of_name(word(first, 0)),
        Level::of_name(word(first, 1)),
    ) {
        (Some(stage), Some(level)) => show_stage(rt, row, stage, level),
        _ => println!(rt; "  no stage or no level"),
    }
}
