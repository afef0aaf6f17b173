// What the webhook dials.
ghost use Rattle.std.specs.Prelude.{IfOk};
ghost use Rattle.std.specs.List.{All};
ghost use Rattle.front_plants.specs.Unused.{IsUnusedDial};
ghost use Rattle.front_ports.specs.Memory.{IsUnused};

use crate::links::push_link;
use front_base::NoMemory;
use front_ports::{MemDial, MemLink};
use std::alloc::{AllocError, Global};

fn reply_of(word: &str) -> &'static str {
    match word {
        "bad" => r"taken\r\n\r\n",
        "503" => r"HTTP/1.1 503 Service Unavailable\r\nContent-Length: 0\r\n\r\n",
        _ => r"HTTP/1.1 200 OK\r\nContent-Length: 0\r\n\r\n",
    }
}

fn failing_writes(alloc: Global, word: &str) -> Result<Vec<u64>, AllocError> {
    let mut fails = Vec::new(alloc);
    if word == "write" {
        fails.push(1)?;
    }
    Ok(fails)
}

fn push_post(alloc: Global, links: &mut Vec<MemLink>, word: &str) -> Result<(), NoMemory>
    requires { All IsUnused links.old.items }
    ensures { All IsUnused links.new.items }
{
    let fails = failing_writes(alloc, word)?;
    push_link(alloc, links, reply_of(word), fails)
}

fn failing_dials(alloc: Global, posts: &str) -> Result<Vec<u64>, AllocError> {
    let mut fails = Vec::new(alloc);
    let mut number: u64 = 0;
    for word in posts.split(' ') {
        number = number.saturating_add(1);
        if word == "dial" {
            fails.push(number)?;
        }
    }
    Ok(fails)
}

/// A dial whose links are those of these posts.
pub fn webhook_of(alloc: Global, posts: &str) -> Result<MemDial, NoMemory>
    ensures { IfOk result IsUnusedDial }
{
    let mut links = Vec::new(alloc);
    for word in posts.split(' ') {
        push_post(alloc, &mut links, word)?;
    }
    let fails = failing_dials(alloc, posts)?;
    MemDial::new(alloc, links, fails)
}
