// The next line of a log, judged.
ghost use Rattle.std.specs.Prelude.{◌≡◌, ◌≤◌, ℕ, List};
ghost use Rattle.audit_check.specs.Conforms.{HasAccepted};
ghost use Rattle.check_command.specs.Checks as spec;
ghost use Rattle.front_ports.specs.Cause.{Rose};
ghost use Rattle.policy_rules.specs.declared.policy.Policy.{Policy};

use crate::check::CheckEnd;
use audit_check::{Checker, LineFault};
use front_ports::Source;
use log_lines::{LineBuffer, LineStop, ReadStop, next_line};
use log_summary::Watch;
use std::alloc::Global;

// What came of a look at the next line.
#[derive(Clone, Copy, Debug, PartialEq, Eq)]
pub enum Next {
    // It conforms, and was passed.
    Accepted,
    // It has so many bytes, is still held, and doesn't conform.
    Refused { length: usize, why: LineFault },
    // None was judged.
    End(CheckEnd),
}

// Why a line that isn't accepted isn't.
fn refused(length: usize, why: LineFault) -> Next
    ensures { result ≡ spec.refused length why }
{
    match why {
        LineFault::NoMemory => Next::End(CheckEnd::NoMemory),
        _ => Next::Refused { length, why },
    }
}

// Why no line comes. `more` says whether bytes are held that are no line.
fn end_of(stop: LineStop, spent: bool, more: bool) -> CheckEnd
    ensures { result ≡ spec.end_of stop spent more }
{
    match stop {
        LineStop::TooLong if spent => CheckEnd::NumbersSpent,
        LineStop::TooLong => CheckEnd::Refused(LineFault::Form),
        LineStop::Input(ReadStop::AtEnd) if !more => CheckEnd::Done,
        LineStop::Input(ReadStop::AtEnd) if spent => CheckEnd::NumbersSpent,
        LineStop::Input(ReadStop::AtEnd) => CheckEnd::Cut,
        LineStop::Input(ReadStop::ReadFault) => CheckEnd::ReadFault,
        LineStop::Input(ReadStop::NoMemory) => CheckEnd::NoMemory,
    }
}

// Reads one more line and judges it. `spent` says that no more may be.
pub fn check_next<S: Source, W: Watch>(
    alloc: Global,
    input: &mut S,
    buffer: &mut LineBuffer,
    checker: &mut Checker,
    spent: bool,
    watch: &mut W,
) -> Next
    ensures checks { (policy : Policy) (before : List (List ℕ)) → HasAccepted policy before checker.old
        → spec.ChecksNext policy before (S.left input.old) (S.left input.new) buffer.old buffer.new spent
        (Rose (S.read_faults input.old) (S.read_faults input.new)) checker.new result }
    ensures later { S.read_faults input.old ≤ S.read_faults input.new }
    ensures told { spec.KeepsCountNext (S.read_faults input.old) (S.read_faults input.new) result }
    ensures stays { spec.Stays checker.old checker.new result }
    ensures stands { spec.MayStand buffer.new spent result }
{
    let length = match next_line(input, buffer) {
        Ok(length) => length,
        Err(stop) => return Next::End(end_of(stop, spent, !buffer.as_slice().is_empty())),
    };
    if spent {
        return Next::End(CheckEnd::NumbersSpent);
    }
    match checker.line(alloc, &buffer.as_slice()[..length], watch) {
        Ok(()) => {
            buffer.skip(length + 1);
            Next::Accepted
        }
        Err(why) => refused(length, why),
    }
}
