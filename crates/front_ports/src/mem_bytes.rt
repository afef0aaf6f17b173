ghost use Rattle.std.specs.Prelude.{◌≡◌, ◌≤◌, [], IfOk, vec_len, vec_capacity};

use crate::stream::{ByteSink, PortFault};
use front_base::NoMemory;
use std::alloc::Global;

/// A sink in memory, which keeps what was written and tells it. It writes into room that was reserved when it was made.
#[derive(Debug, Drop)]
pub struct MemBytes {
    bytes: Vec<u8>,
    room: usize,
    fails: Vec<u64>,
    calls: u64,
    faults: u64,
    ghost reserved: { room ≤ vec_capacity bytes },
    ghost within: { vec_len bytes ≤ room },
}

impl MemBytes {
    ghost use Rattle.front_ports.specs.Memory.{bytes_written, bytes_faults, bytes_room, bytes_fails, bytes_calls};

    /// A sink with room for so many bytes, whose writes of these numbers fail, counted from 1. A write that would pass the
    /// room fails too.
    pub fn new(alloc: Global, room: u64, write_fails: Vec<u64>) -> Result<MemBytes, NoMemory>
        ensures empty { IfOk result (λ sink. bytes_written sink ≡ []) }
        ensures fresh { IfOk result (λ sink. bytes_faults sink ≡ 0) }
        ensures room { IfOk result (λ sink. bytes_room sink ≡ room) }
        ensures fails { IfOk result (λ sink. (bytes_fails sink ≡ write_fails.items) × (bytes_calls sink ≡ 0)) }
    {
        let room = room as usize;
        Ok(MemBytes {
            bytes: Vec::with_capacity(alloc, room)?,
            room,
            fails: write_fails,
            calls: 0,
            faults: 0,
        })
    }

    /// What was written.
    pub fn bytes(&self) -> &[u8]
        ensures { result.now ≡ bytes_written self.now }
    {
        self.bytes.as_slice()
    }

    // How many writes failed.
    pub(crate) fn faults(&self) -> u64
        ensures { result ≡ bytes_faults self.now }
    {
        self.faults
    }

    // What was written, for keeps.
    pub(crate) fn into_bytes(self) -> Vec<u8>
        ensures { result.items ≡ bytes_written self }
    {
        self.bytes
    }
}

impl ByteSink for MemBytes {
    ghost use Rattle.std.specs.Prelude.{◌<◌, Some, None, [], length};
    ghost use Rattle.std.specs.Io.{WritesAtMost};
    ghost use Rattle.std.specs.Io.KnownBytes.{WriteAppends};
    ghost use Rattle.front_ports.specs.Cause.{HasCause};
    ghost use Rattle.front_ports.specs.Memory.{bytes_written, bytes_faults};
    ghost use Rattle.front_ports.specs.MemoryStream.{WritesAsTold};

    ghost written = { λ m. Some m.bytes.items };

    ghost write_faults = { λ m. m.faults };

    ghost inward = { λ m. record { told = None; faults = 0; mark = []; wishes = None } };

    fn write(&mut self, piece: &[u8]) -> Result<usize, PortFault>
        requires { 0 < length piece.now }
        ensures bound { WritesAtMost result piece.now }
        ensures some { IfOk result (λ n. 0 < n) }
        ensures bytes { WriteAppends (Some (bytes_written self.old)) (Some (bytes_written self.new)) result piece.now }
        ensures cause { HasCause (bytes_faults self.old) (bytes_faults self.new) result }

        // Which writes fail, and that the others take the whole piece.
        ensures told { WritesAsTold self.old self.new result (length piece.now) }
    {
        self.calls = self.calls.saturating_add(1);
        if self.fails.contains(&self.calls) || self.room - self.bytes.len() < piece.len() {
            self.faults = self.faults.saturating_add(1);
            return Err(PortFault);
        }
        match self.bytes.extend_from_slice(piece) {
            Ok(()) => Ok(piece.len()),
            Err(_) => unreachable!(),
        }
    }
}
