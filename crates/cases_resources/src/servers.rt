// Servers in memory.
ghost use Rattle.std.specs.Prelude.{IfOk};
ghost use Rattle.std.specs.List.{All};
ghost use Rattle.front_ports.specs.Memory.{IsUnused};

use command_ends::SystemFiles;
use front_base::{Bytes, NoMemory};
use front_ports::{Files, MemDial, MemLink, Script};
use std::alloc::Global;

/// More than any request has.
const ROOM: u64 = 65536;

// The bytes of a file, none where it can't be read.
fn reply_of(rt: &HostRuntime, name: &str) -> Bytes {
    let alloc = rt.alloc();
    match SystemFiles::new(rt).read(alloc, name) {
        Ok(bytes) => bytes,
        Err(_) => Bytes::new(Vec::new(alloc)),
    }
}

// The link of a server that gives these bytes, whose read of that number fails.
fn link_of(alloc: Global, input: Bytes, fail: Option<u64>) -> Result<MemLink, NoMemory>
    ensures { IfOk result IsUnused }
{
    let mut read_fails = Vec::new(alloc);
    if let Some(number) = fail {
        read_fails.push(number)?;
    }
    let script = Script {
        input,
        room: ROOM,
        sizes: Vec::new(alloc),
        read_fails,
        write_fails: Vec::new(alloc),
    };
    MemLink::new(alloc, script)
}

fn named_link(rt: &HostRuntime, word: &str, fail: Option<u64>) -> Result<MemLink, NoMemory>
    ensures { IfOk result IsUnused }
{
    link_of(rt.alloc(), reply_of(rt, word), fail)
}

/// A dial that reaches these servers, one after another.
pub fn dial_of(rt: &HostRuntime, servers: &str) -> Result<MemDial, NoMemory> {
    let alloc = rt.alloc();
    let mut links: Vec<MemLink> = Vec::new(alloc);
    let mut fails = Vec::new(alloc);
    let mut fail = None;
    let mut count = 0u64;
    'servers: for word in servers.split_whitespace() {
        if word == "fault" {
            fail = Some(1);
        } else {
            count = count.saturating_add(1);
            if word == "refused" {
                fails.push(count)?;
            }
            links.push(named_link(rt, word, fail)?)?;
            fail = None;
        }
    }
    MemDial::new(alloc, links, fails)
}
