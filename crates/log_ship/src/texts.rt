// The lines that can be shipped.
ghost use Rattle.std.specs.Prelude.{IfErr, OnOk};
ghost use Rattle.log_ship.specs.Texts as spec;

use audit_reader::{EventFault, read_event};
use json_span::check;
use std::alloc::Global;

/// Why a line is not shipped.
#[derive(Clone, Copy, Debug, PartialEq, Eq)]
pub enum LineFault {
    NotShippable,
    NoMemory,
}

// Whether these bytes are the line of an audit event.
fn check_event(alloc: Global, line: &[u8]) -> Result<(), LineFault>
    ensures ok { OnOk result (spec.IsEventLine line.now) }
    ensures err { IfErr result (spec.RefusedFor (spec.IsEventLine line.now)) }
{
    match read_event(alloc, line) {
        Ok(_) => Ok(()),
        Err(EventFault::NotAnEvent) => Err(LineFault::NotShippable),
        Err(EventFault::NoMemory) => Err(LineFault::NoMemory),
    }
}

/// Whether a line can be shipped: it is one JSON text (RFC 8259) with at most 128 arrays and objects open at once, or the line of an audit event as
/// `serve` and `explain` write it, which opens one more round its objects.
pub fn check_line(alloc: Global, line: &[u8]) -> Result<(), LineFault>
    ensures ok { OnOk result (spec.IsShippable line.now) }
    ensures err { IfErr result (spec.RefusedFor (spec.IsShippable line.now)) }
{
    match check(line) {
        Ok(()) => Ok(()),
        Err(_) => check_event(alloc, line),
    }
}
