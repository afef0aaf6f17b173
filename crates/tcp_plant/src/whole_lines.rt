// Lines that go out whole: the bytes of one that are held until its end comes, and what they are written to.
ghost use Rattle.std.specs.Prelude.{◌≤◌, length};

use crate::log_target::LogTarget;
use std::alloc::Global;
use std::io;
use std::io::{ErrorKind, Print};

// A line that grew the buffer past this many bytes gives it back.
const MOST_HELD_BYTES: usize = 131_072;

/// The bytes of a line whose end has not come.
#[derive(Drop)]
pub(crate) struct HeldBytes {
    alloc: Global,
    bytes: Vec<u8>,
}

/// How many bytes come before the end of the last line in this piece, that end with them.
pub(crate) fn lines_len(piece: &[u8]) -> usize
    ensures { result ≤ length piece.now }
{
    match piece.iter().rposition(|byte| *byte == b'\n') {
        Some(at) => at + 1,
        None => 0,
    }
}

impl HeldBytes {
    pub(crate) fn new(alloc: Global) -> HeldBytes {
        HeldBytes {
            alloc,
            bytes: Vec::new(alloc),
        }
    }

    pub(crate) fn is_empty(&self) -> bool {
        self.bytes.is_empty()
    }

    pub(crate) fn as_slice(&self) -> &[u8] {
        self.bytes.as_slice()
    }

    pub(crate) fn hold(&mut self, bytes: &[u8]) -> io::Result<()> {
        match self.bytes.extend_from_slice(bytes) {
            Ok(()) => Ok(()),
            Err(_) => Err(io::Error::from(ErrorKind::OutOfMemory)),
        }
    }

    /// Holds nothing, and no more memory than ordinary lines need.
    pub(crate) fn let_go(&mut self) {
        if self.bytes.capacity() > MOST_HELD_BYTES {
            self.bytes = Vec::new(self.alloc);
        } else {
            self.bytes.clear();
        }
    }
}

/// Writes lines, each piece in one write, which is continued where it took a part. Where a write ended within a line, the next one
/// begins with a line feed.
#[derive(Drop)]
pub(crate) struct LineWriter {
    target: LogTarget,
    // Whether what was written last ends within a line.
    is_cut: bool,
    // Whether the target took no byte in its time, and none since.
    is_stuck: bool,
}

impl LineWriter {
    pub(crate) fn new(target: LogTarget, is_cut: bool) -> LineWriter {
        LineWriter {
            target,
            is_cut,
            is_stuck: false,
        }
    }

    // Writes all bytes, or as many as can be.
    fn write_whole<R: Print>(&mut self, rt: &R, bytes: &[u8]) -> io::Result<()> {
        let mut left = bytes;
        for _ in 0..u64::MAX {
            if left.is_empty() {
                return Ok(());
            }
            match self.target.write_some(rt, left, self.is_stuck) {
                Ok(count) => {
                    let (written, rest) = left.split_at(count);
                    self.is_cut = written.last() != Some(&b'\n');
                    self.is_stuck = false;
                    left = rest;
                }
                Err(error) if error.kind() == ErrorKind::Interrupted => {}
                Err(error) => {
                    self.is_stuck = error.kind() == ErrorKind::TimedOut;
                    return Err(error);
                }
            }
        }
        Err(io::Error::from(ErrorKind::TimedOut))
    }

    /// Writes these lines, of which the last one ends with them.
    pub(crate) fn write<R: Print>(&mut self, rt: &R, lines: &[u8]) -> io::Result<()> {
        if self.is_cut {
            self.write_whole(rt, b"\n")?;
        }
        self.write_whole(rt, lines)
    }
}
