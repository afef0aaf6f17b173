// Lines before the first one that is shipped.
ghost use Rattle.std.specs.Prelude.{◌≡◌, ◌≤◌, [], false, IfErr, OnOk};
ghost use Rattle.front_ports.specs.Cause.{Rose};
ghost use Rattle.log_ship.specs.Shipped as spec;

use crate::end::ShipEnd;
use crate::next::end_of;
use front_ports::Source;
use log_lines::{LineBuffer, next_line};

/// How many lines were read past, and why no more.
#[derive(Clone, Copy, Debug, PartialEq, Eq)]
pub struct Stopped {
    pub lines: u64,
    pub end: ShipEnd,
}

// Reads past one line.
fn pass_next<S: Source>(input: &mut S, buffer: &mut LineBuffer) -> Result<(), ShipEnd>
    ensures ok { OnOk result (spec.PassesNext (S.left input.old) (S.left input.new) buffer.old buffer.new) }
    ensures err { IfErr result (λ end. spec.EndsNext (S.left input.old) (S.left input.new) buffer.old buffer.new false
        (Rose (S.read_faults input.old) (S.read_faults input.new)) end) }
    ensures later { S.read_faults input.old ≤ S.read_faults input.new }
    ensures calm { OnOk result (S.read_faults input.new ≡ S.read_faults input.old) }
    ensures told { IfErr result (spec.KeepsCount (S.read_faults input.old) (S.read_faults input.new)) }
{
    let length = match next_line(input, buffer) {
        Ok(length) => length,
        Err(stop) => return Err(end_of(stop, false, !buffer.as_slice().is_empty())),
    };
    buffer.skip(length + 1);
    Ok(())
}

/// Reads past so many lines, or says why there are fewer. They are looked at for their line feeds and their lengths alone.
pub fn pass_lines<S: Source>(
    input: &mut S,
    buffer: &mut LineBuffer,
    before: u64,
) -> Result<(), Stopped>
    requires none { buffer.old ≡ [] }
    ensures ok { OnOk result (spec.ReadsPast (S.left input.old) (S.left input.new) before buffer.new) }
    ensures err { IfErr result (λ stopped. spec.StopsBefore before (S.left input.old) (S.left input.new) buffer.new
        (Rose (S.read_faults input.old) (S.read_faults input.new)) stopped.lines stopped.end) }
    ensures later { S.read_faults input.old ≤ S.read_faults input.new }
    ensures calm { OnOk result (S.read_faults input.new ≡ S.read_faults input.old) }
    ensures told { IfErr result (λ stopped. spec.KeepsCount (S.read_faults input.old) (S.read_faults input.new) stopped.end) }
{
    let mut lines = 0;
    'passing: loop {
        if lines == before {
            return Ok(());
        }
        match pass_next(input, buffer) {
            Ok(()) => lines += 1,
            Err(end) => return Err(Stopped { lines, end }),
        }
    }
}
