ghost use Rattle.std.specs.Prelude.{◌<◌, ◌^◌, length};
ghost use Rattle.std.specs.List.{All};
ghost use Rattle.front_ports.specs.Memory.{IsUnused};

use crate::fixtures::{field, line_of, shown, word};
use case_rows::{bytes_of, is_row, read_cases, spelled};
use front_base::{Bytes, Line, NoMemory};
use front_ports::{MemDial, MemLink, Script};
use std::alloc::{AllocError, Global};
use std::io;
use truncate_backend::{BatchSink, MemNotes};
use webhook_sink::{WebhookSink, list_length};

type Hook = WebhookSink<MemDial, MemNotes>;

const URL: &str = "http://127.0.0.1:9400/audit?x=1";

// A reply that a field spells: `-` is the empty one.
fn reply_bytes(alloc: Global, field: &str) -> Vec<u8> {
    if field == "-" {
        return Vec::new(alloc);
    }
    bytes_of(alloc, field)
}

// A link's reads have at most so many bytes each, and it takes one write: a second one fails.
fn script(alloc: Global, size: u32, reply: &str) -> Result<Script, NoMemory> {
    let sizes = vec![in alloc; size; 400]?;
    let write_fails = vec![in alloc; 2]?;
    Ok(Script {
        input: Bytes::new(reply_bytes(alloc, reply)),
        room: 65_536,
        sizes,
        read_fails: Vec::new(alloc),
        write_fails,
    })
}

fn push_link(
    alloc: Global,
    links: &mut Vec<MemLink>,
    size: u32,
    reply: &str,
) -> Result<(), NoMemory>
    requires { All IsUnused links.old.items }
    ensures { All IsUnused links.new.items }
{
    let link = MemLink::new(alloc, script(alloc, size, reply)?)?;
    Ok(links.push(link)?)
}

// A link for each reply of a row, which stand in the fields after the first.
fn dial_of(alloc: Global, size: u32, row: &str) -> Result<MemDial, NoMemory> {
    let mut links = Vec::new(alloc);
    for reply in row.split(" | ").skip(1) {
        push_link(alloc, &mut links, size, reply)?;
    }
    MemDial::new(alloc, links, Vec::new(alloc))
}

fn hook_of(alloc: Global, row: &str) -> Option<Hook> {
    let size = word(row, 0).parse().unwrap_or(0);
    let notes = MemNotes::new(alloc, 8, 1_000, 100_000).ok()?;
    match dial_of(alloc, size, row) {
        Ok(dial) => WebhookSink::start(alloc, URL, dial, notes).ok(),
        Err(_) => {
            drop(notes);
            None
        }
    }
}

// The rows of a file, each as a line.
fn push_lines(alloc: Global, lines: &mut Vec<Line>, text: &str) -> Result<(), AllocError> {
    for row in text.lines() {
        if is_row(row) {
            lines.push(line_of(alloc, row))?;
        }
    }
    Ok(())
}

fn lines_of(rt: &HostRuntime, name: &str) -> Vec<Line> {
    let mut lines = Vec::new(rt.alloc());
    if let Ok(text) = read_cases(rt, name) {
        let _ = push_lines(rt.alloc(), &mut lines, text.as_str());
    }
    lines
}

fn show_tries(rt: &HostRuntime, hook: &mut Hook, lines: &[Line], tries: usize) -> io::Result<()>
    requires { (0 < length lines.now) × (length lines.now < 2 ^ 32) }
{
    for _ in 0..tries {
        let answer = hook.put(lines);
        println!(rt; "  {answer:?}")?;
    }
    Ok(())
}

// What the tries noted, and what was sent where.
fn show_calls(rt: &HostRuntime, hook: &Hook) -> io::Result<()> {
    println!(rt; "  {:?}", hook.notes().notes())?;
    for call in hook.dial().calls().unwrap_or(&[]) {
        println!(rt;
            "  {:?} {}",
            call.to,
            spelled(rt.alloc(), call.sent.as_slice())
        )?;
    }
    Ok(())
}

fn show_posts(rt: &HostRuntime, row: &str, hook: &mut Hook, lines: &[Line]) -> io::Result<()> {
    if lines.len() > 1_000 {
        return println!(rt; "  too many lines");
    }
    println!(rt; "  list of {} bytes", list_length(lines))?;
    if lines.is_empty() {
        return println!(rt; "  no try");
    }
    show_tries(rt, hook, lines, word(field(row, 0), 2).parse().unwrap_or(0))?;
    show_calls(rt, hook)
}

/// The posts of a webhook. A row has the most bytes of a read, the file whose rows are the lines of each post, and how
/// often they are posted; and then the replies, one after another. Past the last one there is no link.
pub fn show_post(rt: &HostRuntime, row: &str) -> io::Result<()> {
    let lines = lines_of(rt, word(field(row, 0), 1));
    match hook_of(rt.alloc(), row) {
        Some(mut hook) => {
            let shown = show_posts(rt, row, &mut hook, lines.as_slice());
            drop(hook);
            shown
        }
        None => println!(rt; "  out of memory"),
    }
}

fn show_answer(rt: &HostRuntime, hook: &mut Hook) -> io::Result<()> {
    let line = line_of(rt.alloc(), "{}");
    let answer = hook.put(std::slice::from_ref(&line));
    println!(rt; "  {answer:?}")
}

/// What the post of a line comes to. A row has the most bytes of a read, and the reply.
pub fn show_reply(rt: &HostRuntime, row: &str) -> io::Result<()> {
    match hook_of(rt.alloc(), row) {
        Some(mut hook) => {
            let shown = show_answer(rt, &mut hook);
            drop(hook);
            shown
        }
        None => println!(rt; "  out of memory"),
    }
}
