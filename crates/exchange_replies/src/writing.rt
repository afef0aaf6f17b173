// Texts that are written to a client.
ghost use Rattle.std.specs.Prelude.{◌≡◌, ◌≤◌, ◌++◌, IfOk, OnErr};
ghost use Rattle.exchange_replies.specs.Writing.{Writes};
ghost use Rattle.front_ports.specs.Cause.{Rose};

use front_base::NoMemory;
use front_ports::{ByteSink, write_all};

// A body of at most so many bytes is written together with its head.
const MOST_JOINED_BYTES: usize = 65_536;

/// How a text was written.
#[derive(Clone, Copy, Debug, PartialEq, Eq)]
pub enum Wrote {
    /// All of it.
    Whole,
    /// A prefix of it, since a write failed.
    Cut,
}

/// Writes all of a text.
pub fn put_text<O: ByteSink>(out: &mut O, text: &[u8]) -> Wrote
    ensures wrote { Writes (O.written out.old) (O.written out.new) text.now
        (Rose (O.write_faults out.old) (O.write_faults out.new)) result }
    ensures later { O.write_faults out.old ≤ O.write_faults out.new }
    ensures aside { O.inward out.new ≡ O.inward out.old }
{
    match write_all(out, text) {
        Ok(()) => Wrote::Whole,
        Err(_) => Wrote::Cut,
    }
}

// Writes a head, and then a body.
fn put_apart<O: ByteSink>(out: &mut O, head: &[u8], body: &[u8]) -> Wrote
    ensures wrote { Writes (O.written out.old) (O.written out.new) (head.now ++ body.now)
        (Rose (O.write_faults out.old) (O.write_faults out.new)) result }
    ensures later { O.write_faults out.old ≤ O.write_faults out.new }
    ensures aside { O.inward out.new ≡ O.inward out.old }
{
    match put_text(out, head) {
        Wrote::Whole => put_text(out, body),
        Wrote::Cut => Wrote::Cut,
    }
}

/// Writes a head and a body, together where the body isn't large. Where memory runs out, nothing was written.
pub fn put<O: ByteSink>(out: &mut O, mut head: Vec<u8>, body: &[u8]) -> Result<Wrote, NoMemory>
    ensures ok { IfOk result (Writes (O.written out.old) (O.written out.new) (head.items ++ body.now)
        (Rose (O.write_faults out.old) (O.write_faults out.new))) }
    ensures err { OnErr result (O.written out.new ≡ O.written out.old) }
    ensures later { O.write_faults out.old ≤ O.write_faults out.new }
    ensures aside { O.inward out.new ≡ O.inward out.old }
{
    if body.len() > MOST_JOINED_BYTES {
        return Ok(put_apart(out, head.as_slice(), body));
    }
    head.extend_from_slice(body)?;
    Ok(put_text(out, head.as_slice()))
}
