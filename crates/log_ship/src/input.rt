ghost use Rattle.std.specs.Prelude.{◌≡◌, ◌≤◌};
ghost use Rattle.front_ports.specs.Cause.{Rose};
ghost use Rattle.log_ship.specs.Shipped.{KeepsCount};
ghost use Rattle.retry_throttle.specs.Clocks.{clock_tells};
ghost use Rattle.log_ship.specs.Paces.{IsWithin, told_by};
ghost use Rattle.log_ship.specs.Runs as spec;
ghost use Rattle.log_ship.specs.Summaries.{Sums};

use crate::pace::{ShipPace, limits_of, sender_of};
use crate::ship::{Shipment, ship_log};
use crate::summary::{Summed, sum_up};
use front_ports::{ByteSink, Clock, Source};
use std::alloc::Global;
use truncate_backend::BatchSink;

/// How lines were shipped, and what is left of their sink and their clock.
#[derive(Drop)]
pub struct ShipEnded<B, K> {
    pub shipment: Shipment,
    pub summed: Summed,
    pub sink: B,
    pub clock: K,
}

// Ships the lines of an input.
fn ship_all<S: Source, B: BatchSink, K: Clock>(
    alloc: Global,
    pace: &ShipPace,
    input: &mut S,
    sink: B,
    clock: K,
) -> (Shipment, B, K)
    requires { IsWithin pace.now }
    ensures ships { spec.Ships pace.now (told_by (B.tells sink) (clock_tells K.given K.last K.rests clock)) (S.left input.old) (S.left input.new)
        (Rose (S.read_faults input.old) (S.read_faults input.new)) result.0 (told_by (B.tells result.1) (clock_tells K.given K.last K.rests result.2)) }
    ensures told { KeepsCount (S.read_faults input.old) (S.read_faults input.new) result.0.end }
    ensures later { S.read_faults input.old ≤ S.read_faults input.new }
{
    let mut sender = sender_of(pace, sink, clock);
    let shipment = ship_log(
        alloc,
        limits_of(pace),
        pace.from_line - 1,
        input,
        &mut sender,
    );
    let (sink, clock) = sender.end();
    (shipment, sink, clock)
}

/// Ships the lines of an input at this pace, from its first line on and from the first moment of the clock on, and writes how many were read, posted
/// and lost, and how many posts there were, where the input's end was reached. Memory is that of one batch and of one line.
pub fn ship_input<S: Source, O: ByteSink, B: BatchSink, K: Clock>(
    alloc: Global,
    pace: &ShipPace,
    input: &mut S,
    out: &mut O,
    sink: B,
    clock: K,
) -> ShipEnded<B, K>
    requires { IsWithin pace.now }
    ensures ships { spec.Ships pace.now (told_by (B.tells sink) (clock_tells K.given K.last K.rests clock)) (S.left input.old) (S.left input.new)
        (Rose (S.read_faults input.old) (S.read_faults input.new)) result.shipment (told_by (B.tells result.sink) (clock_tells K.given K.last K.rests result.clock)) }
    ensures sums { Sums result.shipment (O.written out.old) (O.written out.new) (O.write_faults out.old) (O.write_faults out.new)
        result.summed }
    ensures told { KeepsCount (S.read_faults input.old) (S.read_faults input.new) result.shipment.end }
    ensures read_later { S.read_faults input.old ≤ S.read_faults input.new }
    ensures write_later { O.write_faults out.old ≤ O.write_faults out.new }
{
    let (shipment, sink, clock) = ship_all(alloc, pace, input, sink, clock);
    let summed = sum_up(alloc, shipment, out);
    ShipEnded {
        shipment,
        summed,
        sink,
        clock,
    }
}
