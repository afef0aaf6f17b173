// A buffer before a sink of bytes, and the count of the bytes that went out.
ghost use Rattle.std.specs.Prelude.{◌≡◌, ◌<◌, ◌≤◌, ◌+◌, ◌-◌, ◌^◌, ◌++◌, ◌∷◌, [], length, take, IfOk, OnOk, OnErr, vec_capacity};
ghost use Rattle.front_ports.specs.Cause.{HasCause};
ghost use Rattle.log_sink.specs.Buffered.{Buffered, Stopped, Follows, Stops, Wrote};
ghost use Rattle.log_sink.specs.Texts.{log_text};

use front_base::{Line, NoMemory};
use front_ports::{ByteSink, PortFault, write_counted};
use std::alloc::Global;

/// Each write of a try but the last has so many bytes.
pub const MOST_BUFFERED_BYTES: usize = 65_536;

// It writes its buffer when that is full and at the end of a try.
#[derive(Drop)]
pub struct Buffer<W> {
    pub out: W,
    bytes: Vec<u8>,
    // How many bytes of this try went out.
    sent: u64,
    ghost reserved: { 65536 ≤ vec_capacity bytes },
    ghost within: { length bytes.items ≤ 65536 },
}

impl<W: ByteSink> Buffer<W> {
    pub fn new(alloc: Global, out: W) -> Result<Buffer<W>, NoMemory>
    where
        W: Drop,
        ensures { IfOk result (λ buffer. buffer.out ≡ out) }
    {
        Ok(Buffer {
            out,
            bytes: Vec::with_capacity(alloc, MOST_BUFFERED_BYTES)?,
            sent: 0,
        })
    }

    // Adds a piece that fits.
    fn keep(&mut self, piece: &[u8])
        requires fits { length self.old.bytes.items + length piece.now ≤ 65536 }
        ensures bytes { self.new.bytes.items ≡ self.old.bytes.items ++ piece.now }
        ensures rest { (self.new.out ≡ self.old.out) × (self.new.sent ≡ self.old.sent) }
    {
        match self.bytes.extend_from_slice(piece) {
            Ok(()) => {}
            Err(_) => unreachable!(),
        }
    }

    // Writes what is in the buffer.
    fn flush(&mut self) -> Result<(), PortFault>
        requires room { self.old.sent + length self.old.bytes.items < 2 ^ 63 }
        ensures ok { OnOk result (Follows (W.written self.old.out) self.old.sent self.old.bytes.items
            [] (W.written self.new.out) self.new.sent []) }
        ensures err { OnErr result (Stops (W.written self.old.out) self.old.sent self.old.bytes.items
            [] (W.written self.new.out) self.new.sent) }
        ensures empty { self.new.bytes.items ≡ [] }
        ensures counted { OnOk result (self.new.sent ≡ self.old.sent + length self.old.bytes.items) }
        ensures cause { HasCause (W.write_faults self.old.out) (W.write_faults self.new.out) result }
    {
        let written = write_counted(&mut self.out, self.bytes.as_slice());
        let length = self.bytes.len();
        self.bytes.clear();
        match written {
            Ok(()) => {
                self.sent += length as u64;
                Ok(())
            }
            Err(count) => {
                self.sent += count as u64;
                Err(PortFault)
            }
        }
    }

    // Fills the buffer with the first bytes of a piece that doesn't fit, and writes it. Answers how many these were.
    fn fill(&mut self, piece: &[u8]) -> Result<usize, PortFault>
        requires long { 65536 < length self.old.bytes.items + length piece.now }
        requires room { self.old.sent + length self.old.bytes.items + length piece.now < 2 ^ 63 }
        ensures ok { IfOk result (λ n. Follows (W.written self.old.out) self.old.sent self.old.bytes.items
            (take n piece.now) (W.written self.new.out) self.new.sent []) }
        ensures err { OnErr result (Stops (W.written self.old.out) self.old.sent self.old.bytes.items
            piece.now (W.written self.new.out) self.new.sent) }
        ensures full { IfOk result (λ n. n + length self.old.bytes.items ≡ 65536) }
        ensures empty { self.new.bytes.items ≡ [] }
        ensures counted { IfOk result (λ n. self.new.sent ≡ self.old.sent + 65536) }
        ensures cause { HasCause (W.write_faults self.old.out) (W.write_faults self.new.out) result }
    {
        let room = MOST_BUFFERED_BYTES - self.bytes.len();
        self.keep(&piece[..room]);
        match self.flush() {
            Ok(()) => Ok(room),
            Err(fault) => Err(fault),
        }
    }

    // Adds a piece.
    fn add(&mut self, piece: &[u8]) -> Result<(), PortFault>
        requires room { self.old.sent + length self.old.bytes.items + length piece.now < 2 ^ 63 }
        ensures ok { OnOk result (Follows (W.written self.old.out) self.old.sent self.old.bytes.items
            piece.now (W.written self.new.out) self.new.sent self.new.bytes.items) }
        ensures err { OnErr result (Stops (W.written self.old.out) self.old.sent self.old.bytes.items
            piece.now (W.written self.new.out) self.new.sent) }
        ensures counted { OnOk result (self.new.sent + length self.new.bytes.items
            ≡ self.old.sent + length self.old.bytes.items + length piece.now) }
        ensures cause { HasCause (W.write_faults self.old.out) (W.write_faults self.new.out) result }
    {
        let mut at = 0;
        while MOST_BUFFERED_BYTES - self.bytes.len() < piece.len() - at {
            match self.fill(&piece[at..]) {
                Ok(count) => at += count,
                Err(fault) => return Err(fault),
            }
        }
        self.keep(&piece[at..]);
        Ok(())
    }

    // Adds a line and a line feed.
    fn add_line(&mut self, line: &Line) -> Result<(), PortFault>
        requires room { self.old.sent + length self.old.bytes.items < 2 ^ 62 }
        ensures short { length line.now.bytes ≤ 4194304 }
        ensures ok { OnOk result (Follows (W.written self.old.out) self.old.sent self.old.bytes.items
            (line.now.bytes ++ 10 ∷ []) (W.written self.new.out) self.new.sent self.new.bytes.items) }
        ensures err { OnErr result (Stops (W.written self.old.out) self.old.sent self.old.bytes.items
            (line.now.bytes ++ 10 ∷ []) (W.written self.new.out) self.new.sent) }
        ensures cause { HasCause (W.write_faults self.old.out) (W.write_faults self.new.out) result }
    {
        match self.add(line.bytes.as_slice()) {
            Ok(()) => self.add(b"\n"),
            Err(fault) => Err(fault),
        }
    }

    // Adds each line and a line feed, and writes what is in the buffer.
    fn add_lines(&mut self, lines: &[Line]) -> Result<(), PortFault>
        requires few { length lines.now < 2 ^ 32 }
        requires first { (self.old.sent ≡ 0) × (self.old.bytes.items ≡ []) }
        ensures ok { OnOk result (
            Buffered (W.written self.old.out) (W.written self.new.out) (log_text lines.now) self.new.sent []) }
        ensures err { OnErr result (
            Stopped (W.written self.old.out) (W.written self.new.out) (log_text lines.now) self.new.sent) }
        ensures cause { HasCause (W.write_faults self.old.out) (W.write_faults self.new.out) result }
    {
        for line in lines {
            match self.add_line(line) {
                Ok(()) => {}
                Err(fault) => return Err(fault),
            }
        }
        self.flush()
    }

    // Writes each line and a line feed. Answers how many bytes went out, whether a write failed or not.
    pub fn write_lines(&mut self, lines: &[Line]) -> Result<u64, u64>
        requires few { length lines.now < 2 ^ 32 }
        ensures wrote { Wrote (W.written self.old.out) (W.written self.new.out) (log_text lines.now) result }
        ensures cause { HasCause (W.write_faults self.old.out) (W.write_faults self.new.out) result }
    {
        self.bytes.clear();
        self.sent = 0;
        match self.add_lines(lines) {
            Ok(()) => Ok(self.sent),
            Err(_) => Err(self.sent),
        }
    }
}
