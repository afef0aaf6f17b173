ghost use Rattle.std.specs.Prelude.{◌≡◌, ◌<◌, ℕ, Bool, List, Option, Some, IfOk, length};
ghost use Rattle.std.specs.Io.{ReadsAtMost, WritesAtMost};
ghost use Rattle.std.specs.Io.KnownBytes.{ReadConsumes, WriteAppends};
ghost use Rattle.front_ports.specs.Cause.{HasCause};
ghost use Rattle.front_ports.specs.Mark.{number_mark, number_wishes, visitor_mark, visitor_wishes};

use crate::mem_stream::MemStream;
use crate::stream::{ByteSink, PortFault, Source};
use std::collections::VecDeque;

/// What marks a connection or a link in memory: its visitor, or the number of its call. No read and no write changes it.
pub trait Mark {
    /// The mark as the two sides show it.
    ghost shown: { Self → List ℕ };

    /// What it will wish, as the two sides show it.
    ghost wishes: { Self → Option (List Bool) };
}

/// Who visits by a connection in memory: the IPv4 address of its peer, and whether it will wish to end, each time that it is asked.
#[derive(Debug, Drop)]
pub struct MemVisitor {
    pub(crate) from: [u8; 4],
    pub(crate) wishes: VecDeque<bool>,
}

impl Mark for MemVisitor {
    ghost shown = { visitor_mark };

    ghost wishes = { visitor_wishes };
}

impl Mark for usize {
    ghost shown = { number_mark };

    ghost wishes = { number_wishes };
}

/// A connection or a link in memory, which does what a script says, and tells its input and its output.
#[derive(Debug, Drop)]
pub struct MemDuplex<M> {
    pub(crate) mark: M,
    pub(crate) stream: MemStream,
}

impl<M> MemDuplex<M> {
    ghost use Rattle.front_ports.specs.Memory.{duplex_left, duplex_written};

    /// What was written to it.
    pub fn output(&self) -> &[u8]
        ensures { result.now ≡ duplex_written self.now }
    {
        self.stream.output.bytes()
    }

    // What is left to read.
    pub(crate) fn left(&self) -> &[u8]
        ensures { result.now ≡ duplex_left self.now }
    {
        self.stream.left()
    }

    // What was written to it, for keeps.
    pub(crate) fn into_output(self) -> Vec<u8>
    where
        M: Drop,
        ensures { result.items ≡ duplex_written self }
    {
        let MemDuplex { stream, .. } = self;
        stream.output.into_bytes()
    }
}

impl<M: Mark> Source for MemDuplex<M> {
    ghost use Rattle.front_ports.specs.Memory.{duplex_left, duplex_read_faults, output_side};
    ghost use Rattle.front_ports.specs.MemoryStream.{duplex_stream, ReadsAsTold};

    ghost left = { λ d. Some (duplex_left d) };

    ghost read_faults = { duplex_read_faults };

    ghost outward = { λ d. output_side (M.shown d.mark) (M.wishes d.mark) d };

    fn read(&mut self, buf: &mut [u8]) -> Result<usize, PortFault>
        requires { 0 < length buf.old }
        ensures bound { ReadsAtMost result buf.new }
        ensures bytes { ReadConsumes (Some (duplex_left self.old)) (Some (duplex_left self.new)) result buf.new }
        ensures cause { HasCause (duplex_read_faults self.old) (duplex_read_faults self.new) result }
        ensures aside { output_side (M.shown self.new.mark) (M.wishes self.new.mark) self.new
            ≡ output_side (M.shown self.old.mark) (M.wishes self.old.mark) self.old }

        // Which reads fail, and how many bytes the others give.
        ensures told { ReadsAsTold (duplex_stream self.old) (duplex_stream self.new) result (length buf.old) }
    {
        self.stream.read(buf)
    }
}

impl<M: Mark> ByteSink for MemDuplex<M> {
    ghost use Rattle.front_ports.specs.Memory.{duplex_written, duplex_write_faults, input_side};
    ghost use Rattle.front_ports.specs.MemoryStream.{duplex_stream, SendsAsTold};

    ghost written = { λ d. Some (duplex_written d) };

    ghost write_faults = { duplex_write_faults };

    ghost inward = { λ d. input_side (M.shown d.mark) (M.wishes d.mark) d };

    fn write(&mut self, piece: &[u8]) -> Result<usize, PortFault>
        requires { 0 < length piece.now }
        ensures bound { WritesAtMost result piece.now }
        ensures some { IfOk result (λ n. 0 < n) }
        ensures bytes { WriteAppends (Some (duplex_written self.old)) (Some (duplex_written self.new)) result piece.now }
        ensures cause { HasCause (duplex_write_faults self.old) (duplex_write_faults self.new) result }
        ensures aside { input_side (M.shown self.new.mark) (M.wishes self.new.mark) self.new
            ≡ input_side (M.shown self.old.mark) (M.wishes self.old.mark) self.old }

        // Which writes fail, and that the others take the whole piece.
        ensures told { SendsAsTold (duplex_stream self.old) (duplex_stream self.new) result (length piece.now) }
    {
        self.stream.output.write(piece)
    }
}
