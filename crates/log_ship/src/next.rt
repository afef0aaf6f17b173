// The next line of an input.
ghost use Rattle.std.specs.Prelude.{◌≡◌, ◌≤◌, IfOk, IfErr, OnOk};
ghost use Rattle.front_ports.specs.Cause.{Rose};
ghost use Rattle.log_ship.specs.Shipped as spec;

use crate::end::ShipEnd;
use crate::texts::{LineFault, check_line};
use front_ports::Source;
use log_lines::{LineBuffer, LineStop, ReadStop, next_line};
use std::alloc::Global;

// Why no line comes. `more` says whether bytes are held that are no line.
pub(crate) fn end_of(stop: LineStop, spent: bool, more: bool) -> ShipEnd
    ensures { result ≡ spec.end_of stop spent more }
{
    match stop {
        LineStop::TooLong if spent => ShipEnd::NumbersSpent,
        LineStop::TooLong => ShipEnd::TooLong,
        LineStop::Input(ReadStop::AtEnd) if !more => ShipEnd::Done,
        LineStop::Input(ReadStop::AtEnd) if spent => ShipEnd::NumbersSpent,
        LineStop::Input(ReadStop::AtEnd) => ShipEnd::Cut,
        LineStop::Input(ReadStop::ReadFault) => ShipEnd::ReadFault,
        LineStop::Input(ReadStop::NoMemory) => ShipEnd::NoMemory,
    }
}

/// Reads until a whole line is held that can be shipped, and answers its length without its line feed. It stays held. `spent` says that no
/// more may be read.
pub fn next_text<S: Source>(
    alloc: Global,
    input: &mut S,
    buffer: &mut LineBuffer,
    spent: bool,
) -> Result<usize, ShipEnd>
    ensures ok { IfOk result (λ size. spec.HoldsText (S.left input.old) (S.left input.new) buffer.old buffer.new spent size) }
    ensures err { IfErr result (λ end. spec.EndsNext (S.left input.old) (S.left input.new) buffer.old buffer.new spent
        (Rose (S.read_faults input.old) (S.read_faults input.new)) end) }
    ensures later { S.read_faults input.old ≤ S.read_faults input.new }
    ensures calm { OnOk result (S.read_faults input.new ≡ S.read_faults input.old) }
    ensures told { IfErr result (spec.KeepsCount (S.read_faults input.old) (S.read_faults input.new)) }
{
    let length = match next_line(input, buffer) {
        Ok(length) => length,
        Err(stop) => return Err(end_of(stop, spent, !buffer.as_slice().is_empty())),
    };
    if spent {
        return Err(ShipEnd::NumbersSpent);
    }
    match check_line(alloc, &buffer.as_slice()[..length]) {
        Ok(()) => Ok(length),
        Err(LineFault::NotShippable) => Err(ShipEnd::NotJson),
        Err(LineFault::NoMemory) => Err(ShipEnd::NoMemory),
    }
}
