// What ports in memory give and take.
ghost use Rattle.std.specs.List.{All};
ghost use Rattle.front_ports.specs.Memory.{IsUnused};

use case_rows::bytes_of;
use front_base::{Bytes, NoMemory};
use front_ports::{MemLink, Script};
use std::alloc::Global;

/// How many bytes a port takes.
pub const ROOM: u64 = 1_000_000;

/// A port that gives this input, and whose writes of these numbers fail.
pub fn script(alloc: Global, input: Vec<u8>, write_fails: Vec<u64>) -> Script {
    Script {
        input: Bytes::new(input),
        room: ROOM,
        sizes: Vec::new(alloc),
        read_fails: Vec::new(alloc),
        write_fails,
    }
}

/// Adds a link that gives what this field spells, and whose writes of these numbers fail.
pub fn push_link(
    alloc: Global,
    links: &mut Vec<MemLink>,
    reply: &str,
    write_fails: Vec<u64>,
) -> Result<(), NoMemory>
    requires { All IsUnused links.old.items }
    ensures { All IsUnused links.new.items }
{
    let input = script(alloc, bytes_of(alloc, reply), write_fails);
    let link = MemLink::new(alloc, input)?;
    Ok(links.push(link)?)
}
