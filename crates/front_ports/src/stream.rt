ghost use Rattle.std.specs.Prelude.{◌≡◌, ◌<◌, List, [], ◌∷◌, ℕ, Bool, Option, None, IfOk, IfErr, OnOk, OnErr, length, take};
ghost use Rattle.std.specs.Io.{ReadsAtMost, WritesAtMost};
ghost use Rattle.std.specs.Io.KnownBytes.{Appends, ReadConsumes, WriteAppends};
ghost use Rattle.front_ports.specs.Cause.{HasCause};
ghost use Rattle.front_ports.specs.Side.{Side};
ghost use Rattle.front_ports.specs.Wishes.{GivesWish};
ghost use Rattle.front_ports.specs.Written.{AppendsFront};

/// A call on the outside failed.
#[derive(Clone, Copy, Debug, PartialEq, Eq)]
pub struct PortFault;

/// Where bytes come from.
pub trait Source {
    /// The bytes that it will still give, where it tells them.
    ghost left: { Self → Option (List ℕ) };

    /// How often a read failed. It never falls.
    ghost read_faults: { Self → ℕ };

    /// The other side of the same object, which no read changes.
    ghost outward: { Self → Side };

    /// Puts the next bytes into the buffer, from its first byte on, and answers how many there are. `Ok(0)` is the end of the input.
    fn read(&mut self, buf: &mut [u8]) -> Result<usize, PortFault>
        requires { 0 < length buf.old }
        ensures bound { ReadsAtMost result buf.new }
        ensures bytes { ReadConsumes (left self.old) (left self.new) result buf.new }
        ensures cause { HasCause (read_faults self.old) (read_faults self.new) result }
        ensures aside { outward self.new ≡ outward self.old };
}

/// Where bytes go.
pub trait ByteSink {
    /// The bytes that were written, where it tells them.
    ghost written: { Self → Option (List ℕ) };

    /// How often a write failed. It never falls.
    ghost write_faults: { Self → ℕ };

    /// The other side of the same object, which no write changes.
    ghost inward: { Self → Side };

    /// Takes the first bytes of the piece, one at least, and answers how many. A write of nothing is a fault.
    fn write(&mut self, piece: &[u8]) -> Result<usize, PortFault>
        requires { 0 < length piece.now }
        ensures bound { WritesAtMost result piece.now }
        ensures some { IfOk result (λ n. 0 < n) }
        ensures bytes { WriteAppends (written self.old) (written self.new) result piece.now }
        ensures cause { HasCause (write_faults self.old) (write_faults self.new) result }
        ensures aside { inward self.new ≡ inward self.old };
}

/// A connection that was accepted.
pub trait Conn: Source + ByteSink {
    /// The IPv4 address of the peer, which no call changes.
    ghost from: { Self → List ℕ };

    /// Whether it will wish to end, each time that it is asked, where it tells so. After the last of these it wishes nothing.
    ghost wishes: { Self → Option (List Bool) };

    fn peer(&self) -> [u8; 4]
        ensures { result ≡ from self.now };

    /// Whether it wishes to end after the reply that comes next, as where another client waits for a bay.
    fn wishes_to_end(&mut self) -> bool
        ensures wish { GivesWish (wishes self.old) (wishes self.new) result }
        ensures from { from self.new ≡ from self.old }
        ensures left { Self.left self.new ≡ Self.left self.old }
        ensures read_faults { Self.read_faults self.new ≡ Self.read_faults self.old }
        ensures written { Self.written self.new ≡ Self.written self.old }
        ensures write_faults { Self.write_faults self.new ≡ Self.write_faults self.old };

    /// What a read leaves is the output, and what a write leaves is the input. Both leave what it will wish.
    ghost outward_is: { (c : Self) → Self.outward c
        ≡ record { told = Self.written c; faults = Self.write_faults c; mark = from c; wishes = wishes c } };

    ghost inward_is: { (c : Self) → Self.inward c
        ≡ record { told = Self.left c; faults = Self.read_faults c; mark = from c; wishes = wishes c } };
}

/// A link to a backend.
pub trait Link: Source + ByteSink {
    /// The number of its call among those of its dial, counted from 0, which no call changes.
    ghost number: { Self → ℕ };

    /// What a read leaves is the output, and what a write leaves is the input.
    ghost outward_is: { (link : Self) → Self.outward link
        ≡ record { told = Self.written link; faults = Self.write_faults link; mark = number link ∷ []; wishes = None } };

    ghost inward_is: { (link : Self) → Self.inward link
        ≡ record { told = Self.left link; faults = Self.read_faults link; mark = number link ∷ []; wishes = None } };
}

/// Writes all of a text, in as many writes as the sink wants. On a fault, a prefix of it was written.
pub fn write_all<O: ByteSink>(out: &mut O, text: &[u8]) -> Result<(), PortFault>
    ensures ok { OnOk result (Appends (O.written out.old) (O.written out.new) text.now) }
    ensures err { OnErr result (AppendsFront (O.written out.old) (O.written out.new) text.now) }
    ensures cause { HasCause (O.write_faults out.old) (O.write_faults out.new) result }
    ensures aside { O.inward out.new ≡ O.inward out.old }
{
    match write_counted(out, text) {
        Ok(()) => Ok(()),
        Err(_) => Err(PortFault),
    }
}

/// Does what `write_all` does. On a fault, it says how many bytes of the text were written.
pub fn write_counted<O: ByteSink>(out: &mut O, text: &[u8]) -> Result<(), usize>
    ensures ok { OnOk result (Appends (O.written out.old) (O.written out.new) text.now) }
    ensures err { IfErr result (λ n.
        (n < length text.now) × Appends (O.written out.old) (O.written out.new) (take n text.now)) }
    ensures cause { HasCause (O.write_faults out.old) (O.write_faults out.new) result }
    ensures aside { O.inward out.new ≡ O.inward out.old }
{
    let mut at = 0;
    while at < text.len() {
        match out.write(&text[at..]) {
            Ok(count) => at += count,
            Err(_) => return Err(at),
        }
    }
    Ok(())
}
