// A buffer before a link, and the count of the bytes that went out.
ghost use Rattle.std.specs.Prelude.{◌≡◌, ◌<◌, ◌≤◌, ◌+◌, ◌^◌, ◌++◌, [], length, take, IfOk, OnOk, OnErr, vec_capacity};
ghost use Rattle.front_ports.specs.Cause.{HasCause};
ghost use Rattle.webhook_sink.specs.Buffered.{Follows, Stops};

use front_base::NoMemory;
use front_ports::{ByteSink, PortFault, write_counted};
use std::alloc::Global;

/// Each write of a post but the last has so many bytes.
pub const MOST_BUFFERED_BYTES: usize = 65_536;

// It writes its buffer when that is full and at the end of a post.
#[derive(Drop)]
pub struct SendBuffer {
    pub bytes: Vec<u8>,
    // How many bytes of this post went out.
    pub sent: u64,
    ghost reserved: { 65536 ≤ vec_capacity bytes },
    ghost within: { length bytes.items ≤ 65536 },
}

impl SendBuffer {
    pub fn new(alloc: Global) -> Result<SendBuffer, NoMemory> {
        Ok(SendBuffer {
            bytes: Vec::with_capacity(alloc, MOST_BUFFERED_BYTES)?,
            sent: 0,
        })
    }

    // Nothing is in the buffer, and nothing went out.
    pub fn clear(&mut self)
        ensures { (self.new.sent ≡ 0) × (self.new.bytes.items ≡ []) }
    {
        self.bytes.clear();
        self.sent = 0;
    }

    // Adds a piece that fits.
    fn keep(&mut self, piece: &[u8])
        requires fits { length self.old.bytes.items + length piece.now ≤ 65536 }
        ensures bytes { self.new.bytes.items ≡ self.old.bytes.items ++ piece.now }
        ensures rest { self.new.sent ≡ self.old.sent }
    {
        match self.bytes.extend_from_slice(piece) {
            Ok(()) => {}
            Err(_) => unreachable!(),
        }
    }

    // Writes what is in the buffer.
    pub fn flush<W: ByteSink>(&mut self, out: &mut W) -> Result<(), PortFault>
        requires room { self.old.sent + length self.old.bytes.items < 2 ^ 63 }
        ensures ok { OnOk result (Follows (W.written out.old) self.old.sent self.old.bytes.items
            [] (W.written out.new) self.new.sent []) }
        ensures err { OnErr result (Stops (W.written out.old) self.old.sent self.old.bytes.items
            [] (W.written out.new) self.new.sent) }
        ensures empty { self.new.bytes.items ≡ [] }
        ensures counted { OnOk result (self.new.sent ≡ self.old.sent + length self.old.bytes.items) }
        ensures cause { HasCause (W.write_faults out.old) (W.write_faults out.new) result }
        ensures aside { W.inward out.new ≡ W.inward out.old }
    {
        let written = write_counted(out, self.bytes.as_slice());
        let length = self.bytes.len();
        self.bytes.clear();
        match written {
            Ok(()) => {
                self.sent += length as u64;
                Ok(())
            }
            Err(count) => {
                self.sent += count as u64;
                Err(PortFault)
            }
        }
    }

    // Fills the buffer with the first bytes of a piece that doesn't fit, and writes it. Answers how many these were.
    fn fill<W: ByteSink>(&mut self, out: &mut W, piece: &[u8]) -> Result<usize, PortFault>
        requires long { 65536 < length self.old.bytes.items + length piece.now }
        requires room { self.old.sent + length self.old.bytes.items + length piece.now < 2 ^ 63 }
        ensures ok { IfOk result (λ n. Follows (W.written out.old) self.old.sent self.old.bytes.items
            (take n piece.now) (W.written out.new) self.new.sent []) }
        ensures err { OnErr result (Stops (W.written out.old) self.old.sent self.old.bytes.items
            piece.now (W.written out.new) self.new.sent) }
        ensures full { IfOk result (λ n. n + length self.old.bytes.items ≡ 65536) }
        ensures empty { self.new.bytes.items ≡ [] }
        ensures counted { IfOk result (λ n. self.new.sent ≡ self.old.sent + 65536) }
        ensures cause { HasCause (W.write_faults out.old) (W.write_faults out.new) result }
        ensures aside { W.inward out.new ≡ W.inward out.old }
    {
        let room = MOST_BUFFERED_BYTES - self.bytes.len();
        self.keep(&piece[..room]);
        match self.flush(out) {
            Ok(()) => Ok(room),
            Err(fault) => Err(fault),
        }
    }

    // Adds a piece.
    pub fn add<W: ByteSink>(&mut self, out: &mut W, piece: &[u8]) -> Result<(), PortFault>
        requires room { self.old.sent + length self.old.bytes.items + length piece.now < 2 ^ 63 }
        ensures ok { OnOk result (Follows (W.written out.old) self.old.sent self.old.bytes.items
            piece.now (W.written out.new) self.new.sent self.new.bytes.items) }
        ensures err { OnErr result (Stops (W.written out.old) self.old.sent self.old.bytes.items
            piece.now (W.written out.new) self.new.sent) }
        ensures counted { OnOk result (self.new.sent + length self.new.bytes.items
            ≡ self.old.sent + length self.old.bytes.items + length piece.now) }
        ensures cause { HasCause (W.write_faults out.old) (W.write_faults out.new) result }
        ensures aside { W.inward out.new ≡ W.inward out.old }
    {
        let mut at = 0;
        while MOST_BUFFERED_BYTES - self.bytes.len() < piece.len() - at {
            match self.fill(out, &piece[at..]) {
                Ok(count) => at += count,
                Err(fault) => return Err(fault),
            }
        }
        self.keep(&piece[at..]);
        Ok(())
    }
}
