// The next body.
ghost use Rattle.std.specs.Prelude.{◌≡◌, ◌<◌, ◌≤◌, ◌⊎◌, true, IfOk, IfErr, OnOk, length};
ghost use Rattle.front_ports.specs.Cause.{Rose};
ghost use Rattle.body_frames.specs.Progress.{is_open, is_done, ends_here, most_left};
ghost use Rattle.wire_intake.specs.Bodies as spec;

use crate::intake::{Intake, ReadStop};
use body_frames::{BodyFault, Decoder, Frame, decoded_bodies, first_bodies, refused_bodies};
use front_ports::Source;
use std::alloc::Global;

/// Why no body came.
#[derive(Clone, Copy, Debug, PartialEq, Eq)]
pub enum BodyStop {
    Fault(BodyFault),
    Input(ReadStop),
}

// Feeds what is held once.
fn feed_into(decoder: &mut Decoder, intake: &mut Intake, body: &mut Vec<u8>) -> Result<(), BodyStop>
    ensures ok { OnOk result (
        spec.FedInto decoder.old decoder.new intake.old intake.new body.old.items body.new.items) }
    ensures falls { OnOk result (
        0 < length intake.old → is_open decoder.old ≡ true → most_left decoder.new < most_left decoder.old) }
    ensures awaits { OnOk result (is_done decoder.new ≡ true ⊎ is_open decoder.new ≡ true) }
    ensures err { IfErr result (spec.NotFed decoder.old intake.old) }
{
    let fed = match decoder.feed(intake.as_slice()) {
        Ok(fed) => fed,
        Err(fault) => return Err(BodyStop::Fault(fault)),
    };
    let Ok(()) = body.extend_from_slice(&intake.as_slice()[fed.from..fed.to]) else {
        return Err(BodyStop::Input(ReadStop::NoMemory));
    };
    intake.skip(fed.taken);
    Ok(())
}

// Reads where nothing is held, with more room where the last read was too short.
fn fill<C: Source>(conn: &mut C, intake: &mut Intake) -> Result<(), ReadStop>
    ensures ok { OnOk result (
        spec.Seen (C.left conn.old) (C.left conn.new) intake.old intake.new) }
    ensures some { OnOk result (0 < length intake.new) }
    ensures err { IfErr result (λ stop.
        spec.NotFilled (C.left conn.old) (C.left conn.new) intake.old intake.new
        (Rose (C.read_faults conn.old) (C.read_faults conn.new)) stop) }
    ensures later { C.read_faults conn.old ≤ C.read_faults conn.new }
    ensures calm { OnOk result (C.read_faults conn.new ≡ C.read_faults conn.old) }
    ensures told { IfErr result (spec.KeepsCount (C.read_faults conn.old) (C.read_faults conn.new)) }
    ensures aside { C.outward conn.new ≡ C.outward conn.old }
{
    if 0 < intake.as_slice().len() {
        return Ok(());
    }
    intake.widen();
    intake.refill(conn)
}

// Whether the body is whole where nothing more was read.
fn ends_at(decoder: &Decoder, stop: ReadStop) -> bool
    ensures { result ≡ spec.ends_at (ends_here decoder.now) stop }
{
    match stop {
        ReadStop::AtEnd => decoder.ends_here(),
        ReadStop::ReadFault | ReadStop::NoMemory => false,
    }
}

/// The next body, with its frame taken off, of at most `limit` bytes. What was held or read and is not the body's is held.
/// A body of `Frame::Close` is whole where the input ends.
pub fn next_body<C: Source>(
    alloc: Global,
    conn: &mut C,
    intake: &mut Intake,
    frame: Frame,
    limit: u64,
) -> Result<Vec<u8>, BodyStop>
    ensures ok { IfOk result (λ body.
        spec.GotBody (C.left conn.old) (C.left conn.new) intake.old intake.new frame limit body.items) }
    ensures err { IfErr result (λ stop.
        spec.NoBodyCame (C.left conn.old) (C.left conn.new) intake.old frame limit
        (Rose (C.read_faults conn.old) (C.read_faults conn.new)) stop) }
    ensures later { C.read_faults conn.old ≤ C.read_faults conn.new }
    ensures calm { OnOk result (C.read_faults conn.new ≡ C.read_faults conn.old) }
    ensures told { IfErr result (spec.KeepsCountOfBody (C.read_faults conn.old) (C.read_faults conn.new)) }
    ensures aside { C.outward conn.new ≡ C.outward conn.old }
{
    decoded_bodies();
    refused_bodies();
    first_bodies();
    let mut decoder = Decoder::new(frame, limit);
    let mut body = Vec::new(alloc);
    match feed_into(&mut decoder, intake, &mut body) {
        Ok(()) => {}
        Err(stop) => return Err(stop),
    }
    'feeding: while !decoder.is_done() {
        match fill(conn, intake) {
            Ok(()) => {}
            Err(stop) => {
                if ends_at(&decoder, stop) {
                    return Ok(body);
                }
                return Err(BodyStop::Input(stop));
            }
        }
        match feed_into(&mut decoder, intake, &mut body) {
            Ok(()) => {}
            Err(stop) => return Err(stop),
        }
    }
    Ok(body)
}
