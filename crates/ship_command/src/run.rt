ghost use Rattle.std.specs.Prelude.{◌≡◌, ◌≤◌, None, Some, map, string_bytes};
ghost use Rattle.command_ends.specs.Ports.{port};
ghost use Rattle.retry_throttle.specs.Clocks.{clock_tells};
ghost use Rattle.ship_command.specs.Ended.{TellsShip, left_by, status_of_fail, status_of_ship};
ghost use Rattle.ship_command.specs.Ended as ended;
ghost use Rattle.ship_command.specs.Run as spec;
ghost use Rattle.log_ship.specs.Paces.{IsWithin};

use crate::ended::{Shipped, ship_outcome, status_for, why_of};
use crate::fault::ShipFault;
use crate::ship::{ShipWords, read_ship};
use command_ends::{Outcome, Status};
use front_plants::{Plant, PlantFail};
use front_ports::{ByteSink, Source};
use log_ship::{ShipEnded, ship_input};
use std::alloc::Global;

// An end by words that are refused.
fn refused<H, K>(words: &Vec<String>, fault: ShipFault) -> Shipped<H, K>
    ensures status { result.status ≡ status_of_ship fault }
    ensures why { TellsShip fault result.why }
    ensures none { (result.shipment ≡ None) × (result.sink ≡ None) × (result.clock ≡ None) }
{
    let Outcome { status, why } = ship_outcome(words, fault);
    Shipped {
        status,
        why,
        shipment: None,
        sink: None,
        clock: None,
    }
}

// An end by a webhook that could not be opened.
fn not_opened<H, K>(fail: PlantFail) -> Shipped<H, K>
    ensures status { result.status ≡ status_of_fail fail }
    ensures none { (result.why ≡ None) × (result.shipment ≡ None) × (result.sink ≡ None) × (result.clock ≡ None) }
{
    let status = match fail {
        PlantFail::Port(_) => Status::PortFault,
        PlantFail::NoMemory => Status::NoMemory,
    };
    Shipped {
        status,
        why: None,
        shipment: None,
        sink: None,
        clock: None,
    }
}

// An end once lines were shipped.
fn shipped<H, K>(ship_ended: ShipEnded<H, K>) -> Shipped<H, K>
    ensures status { result.status ≡ ended.status_for ship_ended.shipment.end ship_ended.summed ship_ended.shipment.tally.lost }
    ensures why { result.why ≡ ended.why_of result.status }
    ensures parts { (result.shipment ≡ Some ship_ended.shipment) × (result.sink ≡ Some ship_ended.sink) × (result.clock ≡ Some ship_ended.clock) }
{
    let ShipEnded {
        shipment,
        summed,
        sink,
        clock,
    } = ship_ended;
    let status = status_for(shipment.end, summed, shipment.tally.lost);
    Shipped {
        status,
        why: why_of(status),
        shipment: Some(shipment),
        sink: Some(sink),
        clock: Some(clock),
    }
}

// Opens the webhook and a clock, and ships.
fn ship_over<P: Plant, S: Source, O: ByteSink>(
    alloc: Global,
    told: &ShipWords,
    plant: &mut P,
    input: &mut S,
    out: &mut O,
) -> Shipped<P::H, P::K>
    requires { IsWithin told.now.pace }
    ensures over { spec.RunsOver told.now P.opens (P.tells plant.old) (P.tells plant.new)
        (port (S.left input.old) (S.read_faults input.old) (S.left input.new) (S.read_faults input.new))
        (port (O.written out.old) (O.write_faults out.old) (O.written out.new) (O.write_faults out.new))
        (left_by P.H.tells (clock_tells P.K.given P.K.last P.K.rests) result) }
    ensures read_later { S.read_faults input.old ≤ S.read_faults input.new }
    ensures write_later { O.write_faults out.old ≤ O.write_faults out.new }
{
    let sink = match plant.hook(alloc, told.url.as_str()) {
        Ok(sink) => sink,
        Err(fail) => return not_opened(fail),
    };
    let clock = plant.clock();
    shipped(ship_input(alloc, &told.pace, input, out, sink, clock))
}

/// The command `ship`: reads a log, and posts its lines to the webhook that the words name.
///
/// It takes its webhook by one `hook` and its clock by one `clock`, before it reads, and calls the plant no more. The status is `Done` where the
/// end of the input was reached and each line from `--from-line` on was posted, and `NotDelivered` where some of them were lost: then it wrote how
/// many of these lines there are, how many are posted and how many lost, and how often it posted. It is `Log` where one of them is neither a JSON
/// text nor the line of an audit event, or a line has more than 4194304 bytes or no line feed, and `NumbersSpent` where more than 2^48 of them
/// come; the lines before are sent first, and may be lost. `PortFault` is that of a webhook that could not be opened, and `Usage`,
/// `Configuration`, `ReadFault`, `WriteFault` and `NoMemory` are those of `check`.
pub fn run_ship<P: Plant, S: Source, O: ByteSink>(
    alloc: Global,
    words: &Vec<String>,
    plant: &mut P,
    input: &mut S,
    out: &mut O,
) -> Shipped<P::H, P::K>
    ensures run { spec.Run (map string_bytes words.now.items) P.opens (P.tells plant.old) (P.tells plant.new)
        (port (S.left input.old) (S.read_faults input.old) (S.left input.new) (S.read_faults input.new))
        (port (O.written out.old) (O.write_faults out.old) (O.written out.new) (O.write_faults out.new))
        (left_by P.H.tells (clock_tells P.K.given P.K.last P.K.rests) result) }
    ensures read_later { S.read_faults input.old ≤ S.read_faults input.new }
    ensures write_later { O.write_faults out.old ≤ O.write_faults out.new }
{
    match read_ship(alloc, words) {
        Ok(told) => ship_over(alloc, &told, plant, input, out),
        Err(fault) => refused(words, fault),
    }
}
