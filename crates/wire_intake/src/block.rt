// The block of the next head.
ghost use Rattle.std.specs.Prelude.{◌≡◌, ◌≤◌, IfOk, IfErr, OnOk};
ghost use Rattle.front_ports.specs.Cause.{Rose};
ghost use Rattle.wire_intake.specs.Blocks as spec;

use crate::intake::{Intake, ReadStop};
use front_ports::Source;
use http_head::{BlockAnswer, Search, find_block, searches_go_on};

/// Why no block came.
#[derive(Clone, Copy, Debug, PartialEq, Eq)]
pub enum BlockStop {
    TooLarge,
    Input(ReadStop),
}

/// Reads until the whole block of a head is held, and answers its length. It stays held.
pub fn next_block<C: Source>(conn: &mut C, intake: &mut Intake) -> Result<usize, BlockStop>
    ensures ok { IfOk result (λ len.
        spec.HoldsBlock (C.left conn.old) (C.left conn.new) intake.old intake.new len) }
    ensures err { IfErr result (λ stop.
        spec.NoBlock (C.left conn.old) (C.left conn.new) intake.old intake.new
        (Rose (C.read_faults conn.old) (C.read_faults conn.new)) stop) }
    ensures later { C.read_faults conn.old ≤ C.read_faults conn.new }
    ensures calm { OnOk result (C.read_faults conn.new ≡ C.read_faults conn.old) }
    ensures told { IfErr result (spec.KeepsCount (C.read_faults conn.old) (C.read_faults conn.new)) }
    ensures aside { C.outward conn.new ≡ C.outward conn.old }
{
    searches_go_on();
    let mut search = Search::new();
    'reading: loop {
        match find_block(intake.as_slice(), &mut search) {
            BlockAnswer::Whole(length) => return Ok(length),
            BlockAnswer::TooLarge => return Err(BlockStop::TooLarge),
            BlockAnswer::More => {}
        }
        match intake.refill(conn) {
            Ok(()) => {}
            Err(stop) => return Err(BlockStop::Input(stop)),
        }
    }
}
