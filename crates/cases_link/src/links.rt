ghost use Rattle.std.specs.Prelude.{IfOk};
ghost use Rattle.front_ports.specs.Memory.{IsUnused};

use body_frames::Frame;
use forward_link::whole_frame;
use front_base::{Bytes, NoMemory};
use front_ports::{MemLink, Script};
use std::alloc::{AllocError, Global};

/// A text of its own, empty where memory refused it.
pub fn told(alloc: Global, text: Result<String, AllocError>) -> String {
    match text {
        Ok(text) => text,
        Err(_) => String::new(alloc),
    }
}

/// The frame of a word: `none`, `chunked`, `close`, or how many bytes a body has.
pub fn frame_of(word: &str) -> Frame {
    match word {
        "none" => whole_frame(true, 200, 2),
        "chunked" => Frame::Chunked,
        "close" => Frame::Close,
        _ => whole_frame(false, 200, word.parse().unwrap_or(0)),
    }
}

/// A link that gives these bytes, in reads of so many at most, takes so many, and fails at the reads of these numbers.
pub fn link_of(
    alloc: Global,
    input: &[u8],
    size: u32,
    room: u64,
    read_fails: Vec<u64>,
) -> Result<MemLink, NoMemory>
    ensures { IfOk result IsUnused }
{
    let sizes = vec![in alloc; size; 300]?;
    let input = Bytes::new(input.to_vec(alloc)?);
    MemLink::new(
        alloc,
        Script {
            input,
            room,
            sizes,
            read_fails,
            write_fails: Vec::new(alloc),
        },
    )
}
