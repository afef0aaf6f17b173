// The next line.
ghost use Rattle.std.specs.Prelude.{◌≡◌, ◌≤◌, ◌<◌, ◌+◌, IfOk, IfErr, IfSome, OnOk, IsNone, length, take};
ghost use Rattle.front_base.specs.declared.line.TheConstants.{MOST_LINE_BYTES};
ghost use Rattle.front_ports.specs.Cause.{Rose};
ghost use Rattle.log_lines.specs.Lines as spec;

use crate::buffer::{LineBuffer, ReadStop};
use front_base::MOST_LINE_BYTES;
use front_ports::Source;
use memchr::memchr;

/// Why no line came.
#[derive(Clone, Copy, Debug, PartialEq, Eq)]
pub enum LineStop {
    /// There is no line feed among as many bytes as a line may have, and one more.
    TooLong,
    Input(ReadStop),
}

// The place of the first line feed from a place on.
fn feed_from(held: &[u8], from: usize) -> Option<usize>
    requires { from ≤ length held.now }
    ensures { spec.IsFeedFrom held.now from result }
{
    match memchr(b'\n', &held[from..]) {
        Some(further) => Some(from + further),
        None => None,
    }
}

// A line of so many bytes, unless that is too long.
fn ended_at(length: usize) -> Result<usize, LineStop>
    ensures { result ≡ spec.ended_at length }
{
    if length as u64 <= MOST_LINE_BYTES {
        Ok(length)
    } else {
        Err(LineStop::TooLong)
    }
}

/// Reads until a whole line is held, and answers its length without its line feed. It stays held.
pub fn next_line<S: Source>(input: &mut S, lines: &mut LineBuffer) -> Result<usize, LineStop>
    ensures ok { IfOk result (λ len. spec.HoldsLine (S.left input.old) (S.left input.new) lines.old lines.new len) }
    ensures err { IfErr result (λ stop. spec.NoLine (S.left input.old) (S.left input.new) lines.old lines.new
        (Rose (S.read_faults input.old) (S.read_faults input.new)) stop) }
    ensures later { S.read_faults input.old ≤ S.read_faults input.new }
    ensures calm { OnOk result (S.read_faults input.new ≡ S.read_faults input.old) }
    ensures told { IfErr result (spec.KeepsCount (S.read_faults input.old) (S.read_faults input.new)) }
{
    let mut from = 0;
    'reading: loop {
        let held = lines.as_slice();
        let count = held.len();
        if let Some(length) = feed_from(held, from) {
            return ended_at(length);
        }
        if count as u64 > MOST_LINE_BYTES {
            return Err(LineStop::TooLong);
        }
        from = count;
        match lines.refill(input) {
            Ok(()) => {}
            Err(stop) => return Err(LineStop::Input(stop)),
        }
    }
}
