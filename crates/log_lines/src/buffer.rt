// The bytes that were read and not yet used.
ghost use Rattle.std.specs.Prelude.{◌≡◌, ◌<◌, ◌≤◌, ◌+◌, [], IfOk, IfErr, OnOk, length, drop, vec_len};
ghost use Rattle.front_base.specs.declared.line.TheConstants.{MOST_LINE_BYTES};
ghost use Rattle.front_ports.specs.Cause.{Rose};
ghost use Rattle.log_lines.specs.Seen as spec;

use front_base::{MOST_LINE_BYTES, NoMemory};
use front_ports::Source;
use std::alloc::Global;
use std::marker::Model;

/// The most bytes that one read takes.
pub const MOST_READ_BYTES: usize = 65536;

/// The most bytes that are held: as many as a line may have, its line feed, and those of one read.
pub const MOST_HELD_BYTES: usize = 4259841;

/// Why nothing was read.
#[derive(Clone, Copy, Debug, PartialEq, Eq)]
pub enum ReadStop {
    AtEnd,
    ReadFault,
    NoMemory,
}

/// The bytes that were read and not yet used, which contracts see as a list. Using some moves none of the others.
#[derive(Debug, Drop)]
pub struct LineBuffer {
    bytes: Vec<u8>,
    at: usize,
}

impl Model for LineBuffer {
    ghost use Rattle.std.specs.Prelude.{ℕ, List, ◌≤◌, ◌+◌, drop, vec_len};
    ghost use Rattle.log_lines.specs.declared.buffer.TheConstants.{MOST_HELD_BYTES};

    ghost Value = { List ℕ };

    ghost view = { λ b. drop b.at b.bytes.items };

    ghost invariant = { λ b. (b.at ≤ vec_len b.bytes) × (vec_len b.bytes ≤ b.at + MOST_HELD_BYTES) };
}

// Takes the first bytes off.
fn drop_first(bytes: &mut Vec<u8>, count: usize)
    requires { count ≤ vec_len bytes.old }
    ensures { bytes.new.items ≡ drop count bytes.old.items }
{
    let rest = bytes.len() - count;
    if 0 < count {
        bytes.rotate_left(count);
    }
    bytes.truncate(rest);
}

// Reads once, and holds what came after what was held.
fn read_after<S: Source>(input: &mut S, bytes: &mut Vec<u8>) -> Result<(), ReadStop>
    requires { vec_len bytes.old ≤ MOST_LINE_BYTES + 1 }
    ensures ok { OnOk result (spec.Refilled (S.left input.old) (S.left input.new) bytes.old.items bytes.new.items) }
    ensures err { IfErr result (λ stop. spec.NotRead (S.left input.old) (S.left input.new) bytes.old.items bytes.new.items
        (Rose (S.read_faults input.old) (S.read_faults input.new)) stop) }
    ensures later { S.read_faults input.old ≤ S.read_faults input.new }
    ensures calm { OnOk result (S.read_faults input.new ≡ S.read_faults input.old) }
    ensures told { IfErr result (spec.KeepsCount (S.read_faults input.old) (S.read_faults input.new)) }
    ensures bounded { vec_len bytes.new ≤ MOST_HELD_BYTES }
{
    let mut piece = [0u8; MOST_READ_BYTES];
    let Ok(count) = input.read(&mut piece) else {
        return Err(ReadStop::ReadFault);
    };
    if count == 0 {
        return Err(ReadStop::AtEnd);
    }
    let Ok(()) = bytes.extend_from_slice(&piece[..count]) else {
        return Err(ReadStop::NoMemory);
    };
    Ok(())
}

impl LineBuffer {
    /// Nothing is held. Room for one read is taken.
    pub fn new(alloc: Global) -> Result<LineBuffer, NoMemory>
        ensures { IfOk result (λ buffer. buffer ≡ []) }
    {
        Ok(LineBuffer {
            bytes: Vec::with_capacity(alloc, MOST_READ_BYTES)?,
            at: 0,
        })
    }

    /// The bytes that are held.
    pub fn as_slice(&self) -> &[u8]
        ensures value { result.now ≡ self.now }
        ensures most { length result.now ≤ MOST_HELD_BYTES }
    {
        &self.bytes[self.at..]
    }

    /// Uses the first bytes.
    pub fn skip(&mut self, count: usize)
        requires { count ≤ length self.old }
        ensures { self.new ≡ drop count self.old }
    {
        self.at += count;
    }

    /// Reads once, and holds what came after what was held.
    pub fn refill<S: Source>(&mut self, input: &mut S) -> Result<(), ReadStop>
        requires { length self.old ≤ MOST_LINE_BYTES + 1 }
        ensures ok { OnOk result (spec.Refilled (S.left input.old) (S.left input.new) self.old self.new) }
        ensures err { IfErr result (λ stop. spec.NotRead (S.left input.old) (S.left input.new) self.old self.new
            (Rose (S.read_faults input.old) (S.read_faults input.new)) stop) }
        ensures later { S.read_faults input.old ≤ S.read_faults input.new }
        ensures calm { OnOk result (S.read_faults input.new ≡ S.read_faults input.old) }
        ensures told { IfErr result (spec.KeepsCount (S.read_faults input.old) (S.read_faults input.new)) }
    {
        drop_first(&mut self.bytes, self.at);
        self.at = 0;
        read_after(input, &mut self.bytes)
    }
}
