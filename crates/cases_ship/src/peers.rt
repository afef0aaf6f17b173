// What a webhook dials, and an input.
ghost use Rattle.std.specs.Prelude.{IfOk};
ghost use Rattle.std.specs.List.{All};
ghost use Rattle.front_plants.specs.Unused.{IsUnusedDial};
ghost use Rattle.front_ports.specs.Memory.{IsUnused};

use case_rows::bytes_of;
use front_base::{Bytes, NoMemory};
use front_ports::{MemDial, MemLink, Script};
use std::alloc::{AllocError, Global};

/// A stream that gives these bytes.
pub fn stream_of(alloc: Global, input: Vec<u8>) -> Result<MemLink, NoMemory>
    ensures { IfOk result IsUnused }
{
    MemLink::new(
        alloc,
        Script {
            input: Bytes::new(input),
            room: 65_536,
            sizes: Vec::new(alloc),
            read_fails: Vec::new(alloc),
            write_fails: Vec::new(alloc),
        },
    )
}

// What a peer says that answers so.
fn reply_of(alloc: Global, word: &str) -> Result<Vec<u8>, AllocError> {
    if word == "bad" {
        return Ok(bytes_of(alloc, r"taken\r\n\r\n"));
    }
    let head = format!(in alloc; "HTTP/1.1 {word} Said\\r\\nContent-Length: 0\\r\\n\\r\\n")?;
    Ok(bytes_of(alloc, &head))
}

fn push_answer(alloc: Global, links: &mut Vec<MemLink>, word: &str) -> Result<(), NoMemory>
    requires { All IsUnused links.old.items }
    ensures { All IsUnused links.new.items }
{
    let link = stream_of(alloc, reply_of(alloc, word)?)?;
    Ok(links.push(link)?)
}

fn failing_dials(alloc: Global, answers: &str) -> Result<Vec<u64>, AllocError> {
    let mut fails = Vec::new(alloc);
    let mut number: u64 = 0;
    for word in answers.split(' ') {
        number = number.saturating_add(1);
        if word == "gone" {
            fails.push(number)?;
        }
    }
    Ok(fails)
}

/// A dial whose links answer so, one after another.
pub fn peer_of(alloc: Global, answers: &str) -> Result<MemDial, NoMemory>
    ensures { IfOk result IsUnusedDial }
{
    let mut links = Vec::new(alloc);
    for word in answers.split(' ') {
        push_answer(alloc, &mut links, word)?;
    }
    let fails = failing_dials(alloc, answers)?;
    MemDial::new(alloc, links, fails)
}
