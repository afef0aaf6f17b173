// Inputs that are shipped: how a batch is cut, posted again and given up, and what the bucket allows.
ghost use Rattle.std.specs.Prelude.{◌≤◌};

use crate::peers::{peer_of, stream_of};
use batch_backend::Limits;
use case_rows::{bytes_of, fields, is_row, read_cases};
use front_base::Moment;
use front_ports::{Clock, MemClock, MemDial};
use log_ship::{ShipEnd, Shipment, ship_log};
use retry_throttle::{Bucket, Sender};
use std::alloc::Global;
use truncate_backend::NoNotes;
use webhook_sink::WebhookSink;

const URL: &str = "http://127.0.0.1:9400/audit";

// A number of a field, 1 where there is none.
fn number(field: &str, place: usize) -> u64 {
    match field.split(' ').nth(place) {
        Some(word) => word.parse().unwrap_or(1),
        None => 1,
    }
}

// A number from 1 to the most.
fn number_to(field: &str, place: usize, most: u32) -> u32
    requires { 1 ≤ most }
    ensures { (1 ≤ result) × (result ≤ most) }
{
    let given = number(field, place);
    if given == 0 {
        1
    } else if given <= u64::from(most) {
        given as u32
    } else {
        most
    }
}

fn word_of(end: ShipEnd) -> &'static str {
    match end {
        ShipEnd::Done => "done",
        ShipEnd::NotJson => "refused",
        ShipEnd::TooLong => "too long",
        ShipEnd::Cut => "cut",
        ShipEnd::ReadFault => "read fault",
        ShipEnd::NumbersSpent => "numbers spent",
        ShipEnd::NoMemory => "no memory",
    }
}

// Ships an input to a webhook.
fn ship(
    alloc: Global,
    input: Vec<u8>,
    numbers: &str,
    hook: WebhookSink<MemDial, NoNotes>,
) -> Option<Shipment> {
    let mut source = stream_of(alloc, input).ok()?;
    let limits = Limits {
        lines: number_to(numbers, 0, 1000),
        bytes: number(numbers, 1),
        wait: 0,
    };
    let mut clock = MemClock::new(Moment::epoch(), number(numbers, 6));
    let bucket = Bucket::start(
        number_to(numbers, 3, 1000),
        number_to(numbers, 4, 1000),
        clock.now(),
    );
    let mut sender = Sender::new(
        hook,
        clock,
        bucket,
        number_to(numbers, 2, 10),
        u64::from(number_to(numbers, 5, 30_000)) * 1000,
    );
    let before = number(numbers, 7).min(1000);
    Some(ship_log(alloc, limits, before, &mut source, &mut sender))
}

// What becomes of the lines of a row.
fn show_ship(alloc: Global, row: &str) -> Option<String> {
    let (input, rest) = fields(row);
    let (numbers, answers) = fields(rest);
    let dial = peer_of(alloc, answers).ok()?;
    let hook = WebhookSink::start(alloc, URL, dial, NoNotes).ok()?;
    let shipment = ship(alloc, bytes_of(alloc, input), numbers, hook)?;
    let word = word_of(shipment.end);
    let tally = shipment.tally;
    format!(in alloc;
        "{word}: passed {}, lines {}, posted {}, lost {}, posts {}",
        shipment.passed, shipment.lines, tally.posted, tally.lost, tally.posts
    )
    .ok()
}

/// Prints each row of `data/ships.txt` with its answer.
pub fn show_ships(rt: &HostRuntime) -> Option<()> {
    let text = read_cases(rt, "ships.txt").ok()?;
    for row in text.lines() {
        if is_row(row) {
            let answer = show_ship(rt.alloc(), row)?;
            print!(rt; "{row} => {answer}\n").ok()?;
        }
    }
    Some(())
}
