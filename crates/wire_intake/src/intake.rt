// The bytes that were read and not yet used.
ghost use Rattle.std.specs.Prelude.{◌≡◌, ◌<◌, ◌≤◌, [], IfOk, IfErr, OnOk, length, drop};
ghost use Rattle.front_ports.specs.Cause.{Rose};
ghost use Rattle.wire_intake.specs.Seen as spec;

use crate::room::{lengthen, move_first, read_after};
use front_base::NoMemory;
use front_ports::Source;
use http_head::MOST_HEAD_BYTES;
use std::alloc::Global;
use std::marker::Model;

/// The room for reads, in bytes, that is taken first, and each time that a head fills it.
pub const MOST_READ_BYTES: usize = 4096;

/// The most room, in bytes, that bodies have taken. It is kept then.
pub const MOST_BODY_READ_BYTES: usize = 65536;

/// The most bytes that are held: as many as a head may have, and those of one read.
pub const MOST_HELD_BYTES: usize = 69632;

/// Why nothing was read.
#[derive(Clone, Copy, Debug, PartialEq, Eq)]
pub enum ReadStop {
    AtEnd,
    ReadFault,
    NoMemory,
}

/// The bytes that were read and not yet used, which contracts see as a list. Using some moves none of the others.
#[derive(Debug, Drop)]
pub struct Intake {
    // All of it is room for reads: what is held stands from `at` up to `end`.
    room: Vec<u8>,
    at: usize,
    end: usize,
    used: u64,
}

impl Model for Intake {
    ghost use Rattle.std.specs.Prelude.{ℕ, List, ◌<◌, ◌≤◌, drop, take, vec_len};
    ghost use Rattle.wire_intake.specs.declared.intake.TheConstants.{MOST_HELD_BYTES};

    ghost Value = { List ℕ };

    ghost view = { λ i. drop i.at (take i.end i.room.items) };

    ghost invariant = { λ i. (i.at ≤ i.end) × (i.end ≤ vec_len i.room) × (0 < vec_len i.room)
        × (vec_len i.room ≤ MOST_HELD_BYTES) };
}

impl Intake {
    /// Nothing is held. Room for one read is taken.
    pub fn new(alloc: Global) -> Result<Intake, NoMemory>
        ensures { IfOk result (λ intake. intake ≡ []) }
    {
        Ok(Intake {
            room: vec![in alloc; 0u8; MOST_READ_BYTES]?,
            at: 0,
            end: 0,
            used: 0,
        })
    }

    /// The bytes that are held.
    pub fn as_slice(&self) -> &[u8]
        ensures value { result.now ≡ self.now }
        ensures most { length result.now ≤ MOST_HELD_BYTES }
    {
        &self.room[self.at..self.end]
    }

    /// How many bytes were used, for messages: no clause says so.
    pub fn used(&self) -> u64 {
        self.used
    }

    /// Uses the first bytes.
    pub fn skip(&mut self, count: usize)
        requires { count ≤ length self.old }
        ensures { self.new ≡ drop count self.old }
    {
        self.at += count;
        self.used = self.used.saturating_add(count as u64);
    }

    /// Takes four times the room for the reads to come where the last one filled it, up to `MOST_BODY_READ_BYTES`. Where
    /// memory is short, they have the room that there is.
    pub fn widen(&mut self)
        ensures { self.new ≡ self.old }
    {
        let len = self.room.len();
        if self.end == len && len < MOST_BODY_READ_BYTES {
            let _ = lengthen(&mut self.room, MOST_BODY_READ_BYTES.min(len * 4));
        }
    }

    /// Reads once, into all of the room, and holds what came after what was held.
    pub fn refill<C: Source>(&mut self, conn: &mut C) -> Result<(), ReadStop>
        requires { length self.old < MOST_HEAD_BYTES }
        ensures ok { OnOk result (
            spec.Refilled (C.left conn.old) (C.left conn.new) self.old self.new) }
        ensures err { IfErr result (λ stop.
            spec.NotRead (C.left conn.old) (C.left conn.new) self.old self.new
            (Rose (C.read_faults conn.old) (C.read_faults conn.new)) stop) }
        ensures later { C.read_faults conn.old ≤ C.read_faults conn.new }
        ensures calm { OnOk result (C.read_faults conn.new ≡ C.read_faults conn.old) }
        ensures told { IfErr result (spec.KeepsCount (C.read_faults conn.old) (C.read_faults conn.new)) }
        ensures aside { C.outward conn.new ≡ C.outward conn.old }
    {
        move_first(&mut self.room, self.at, self.end);
        self.end -= self.at;
        self.at = 0;
        let len = self.room.len();
        if self.end == len {
            let Ok(()) = lengthen(&mut self.room, len + MOST_READ_BYTES) else {
                return Err(ReadStop::NoMemory);
            };
        }
        match read_after(conn, &mut self.room, self.end) {
            Ok(end) => {
                self.end = end;
                Ok(())
            }
            Err(stop) => Err(stop),
        }
    }
}
