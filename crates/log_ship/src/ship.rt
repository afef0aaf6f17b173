ghost use Rattle.std.specs.Prelude.{◌≡◌, ◌<◌, ◌≤◌, [], IfNone, IfSome, length};
ghost use Rattle.front_base.specs.declared.audit_id.TheConstants.{MOST_REQUESTS};
ghost use Rattle.front_ports.specs.Cause.{Rose};
ghost use Rattle.log_ship.specs.Shipped as spec;
ghost use Rattle.log_ship.specs.Sides.{side_of};
ghost use Rattle.retry_throttle.specs.Senders.{sender_bucket, sender_clock, sender_rules};

use crate::cut_laws::gathering_cuts;
use crate::end::ShipEnd;
use crate::gathering::Gathering;
use crate::next::next_text;
use crate::pass::pass_lines;
use crate::send::{add_text, send_rest};
use crate::tally::Tally;
use batch_backend::Limits;
use front_base::MOST_REQUESTS;
use front_ports::{Clock, Source};
use log_lines::LineBuffer;
use retry_throttle::{Sender, clocks_go_on};
use std::alloc::Global;
use truncate_backend::BatchSink;

/// What became of the lines of an input.
#[derive(Clone, Copy, Debug, PartialEq, Eq)]
pub struct Shipment {
    /// How many lines were read past.
    pub passed: u64,
    /// How many lines were read after those.
    pub lines: u64,
    pub tally: Tally,
    pub end: ShipEnd,
}

// Reads one more line and adds it. Nothing is answered where it was added. `spent` says that no more may be.
fn ship_next<S: Source, B: BatchSink, K: Clock>(
    alloc: Global,
    input: &mut S,
    buffer: &mut LineBuffer,
    batch: &mut Gathering,
    sender: &mut Sender<B, K>,
    tally: &mut Tally,
    number: u64,
    spent: bool,
) -> Option<ShipEnd>
    requires behind { (sender_bucket sender.old).last ≤ K.last (sender_clock sender.old) }
    ensures ships { spec.ShipsNext (sender_rules sender.old) (S.left input.old) (S.left input.new) buffer.old buffer.new spent number
        (Rose (S.read_faults input.old) (S.read_faults input.new)) (side_of B.tells K.given K.last K.rests sender.old) batch.old tally.old
        (side_of B.tells K.given K.last K.rests sender.new) batch.new tally.new result }
    ensures behind { (sender_bucket sender.new).last ≤ K.last (sender_clock sender.new) }
    ensures rules { sender_rules sender.new ≡ sender_rules sender.old }
    ensures later { S.read_faults input.old ≤ S.read_faults input.new }
    ensures calm { IfNone result (S.read_faults input.new ≡ S.read_faults input.old) }
    ensures told { IfSome result (spec.KeepsCount (S.read_faults input.old) (S.read_faults input.new)) }
{
    let size = match next_text(alloc, input, buffer, spent) {
        Ok(size) => size,
        Err(end) => return Some(end),
    };
    match add_text(
        alloc,
        number,
        &buffer.as_slice()[..size],
        batch,
        sender,
        tally,
    ) {
        Ok(()) => {
            buffer.skip(size + 1);
            None
        }
        Err(_) => Some(ShipEnd::NoMemory),
    }
}

// Sends what waits, unless memory ran out.
fn end_with<B: BatchSink, K: Clock>(
    end: ShipEnd,
    batch: &mut Gathering,
    sender: &mut Sender<B, K>,
    tally: &mut Tally,
)
    requires behind { (sender_bucket sender.old).last ≤ K.last (sender_clock sender.old) }
    ensures sends { spec.SendsAtEnd end (sender_rules sender.old) (side_of B.tells K.given K.last K.rests sender.old) batch.old.lines tally.old
        (side_of B.tells K.given K.last K.rests sender.new) tally.new }
    ensures behind { (sender_bucket sender.new).last ≤ K.last (sender_clock sender.new) }
    ensures rules { sender_rules sender.new ≡ sender_rules sender.old }
{
    match end {
        ShipEnd::NoMemory => {}
        _ => send_rest(batch, sender, tally),
    }
}

/// Reads past so many lines of an input, each ended by a line feed, reads the others, and sends these in batches: up to the first line that can't
/// be sent, or to the end of the input. The lines before it are sent too, unless memory ran out. Of an input that tells nothing the contract says
/// that some bytes were read of which this holds. A batch is sent as soon as it can take no more: what is held is one batch and one line.
pub fn ship_log<S: Source, B: BatchSink, K: Clock>(
    alloc: Global,
    limits: Limits,
    before: u64,
    input: &mut S,
    sender: &mut Sender<B, K>,
) -> Shipment
    requires some { 0 < limits.lines }
    requires few { before ≤ MOST_REQUESTS }
    requires behind { (sender_bucket sender.old).last ≤ K.last (sender_clock sender.old) }
    ensures ships { spec.ShipsInput (record { limits = limits; rules = sender_rules sender.old }) before
        (side_of B.tells K.given K.last K.rests sender.old)
        (S.left input.old) (S.left input.new) (Rose (S.read_faults input.old) (S.read_faults input.new))
        result.passed result.lines result.tally result.end (side_of B.tells K.given K.last K.rests sender.new) }
    ensures later { S.read_faults input.old ≤ S.read_faults input.new }
    ensures told { spec.KeepsCount (S.read_faults input.old) (S.read_faults input.new) result.end }
    ensures behind { (sender_bucket sender.new).last ≤ K.last (sender_clock sender.new) }
{
    gathering_cuts();
    clocks_go_on();
    let mut tally = Tally::none();
    let Ok(mut buffer) = LineBuffer::new(alloc) else {
        return Shipment {
            passed: 0,
            lines: 0,
            tally,
            end: ShipEnd::NoMemory,
        };
    };
    let Ok(mut batch) = Gathering::new(alloc, limits) else {
        return Shipment {
            passed: 0,
            lines: 0,
            tally,
            end: ShipEnd::NoMemory,
        };
    };
    match pass_lines(input, &mut buffer, before) {
        Ok(()) => {}
        Err(stopped) => {
            return Shipment {
                passed: stopped.lines,
                lines: 0,
                tally,
                end: stopped.end,
            };
        }
    }
    let mut lines = 0;
    'shipping: loop {
        let spent = lines == MOST_REQUESTS;
        match ship_next(
            alloc,
            input,
            &mut buffer,
            &mut batch,
            sender,
            &mut tally,
            before + lines,
            spent,
        ) {
            None => lines += 1,
            Some(end) => {
                end_with(end, &mut batch, sender, &mut tally);
                return Shipment {
                    passed: before,
                    lines,
                    tally,
                    end,
                };
            }
        }
    }
}
