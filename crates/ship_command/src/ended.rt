// How a run of `ship` ends.
ghost use Rattle.std.specs.Prelude.{◌≡◌};
ghost use Rattle.ship_command.specs.Ended as spec;

use crate::fault::ShipFault;
use command_ends::{Outcome, Status, words_outcome};
use log_ship::{ShipEnd, Shipment, Summed};
use refusal_text::Refusal;

/// What a run of `ship` leaves.
#[derive(Drop)]
pub struct Shipped<H, K> {
    pub status: Status,
    /// What was refused, where there is more to tell than the status.
    pub why: Option<Refusal>,
    /// What became of the lines, where the webhook was opened.
    pub shipment: Option<Shipment>,
    /// The webhook and the clock, where they were opened.
    pub sink: Option<H>,
    pub clock: Option<K>,
}

/// The status by which it is told why no more lines were shipped.
pub fn status_of(end: ShipEnd) -> Status
    ensures { result ≡ spec.status_of end }
{
    match end {
        ShipEnd::Done => Status::Done,
        ShipEnd::NotJson | ShipEnd::TooLong | ShipEnd::Cut => Status::Log,
        ShipEnd::ReadFault => Status::ReadFault,
        ShipEnd::NumbersSpent => Status::NumbersSpent,
        ShipEnd::NoMemory => Status::NoMemory,
    }
}

/// The same once the summary is written, or can't be, and so many lines are lost.
pub fn status_for(end: ShipEnd, summed: Summed, lost: u64) -> Status
    ensures { result ≡ spec.status_for end summed lost }
{
    match summed {
        Summed::Written if lost == 0 => Status::Done,
        Summed::Written => Status::NotDelivered,
        Summed::NotDue => status_of(end),
        Summed::WriteFault => Status::WriteFault,
        Summed::NoMemory => Status::NoMemory,
    }
}

/// The input or the output, where it failed.
pub fn why_of(status: Status) -> Option<Refusal>
    ensures { result ≡ spec.why_of status }
{
    match status {
        Status::ReadFault => Some(Refusal::Input),
        Status::WriteFault => Some(Refusal::Output),
        _ => None,
    }
}

/// How a run ends whose words are refused.
pub fn ship_outcome(words: &Vec<String>, fault: ShipFault) -> Outcome
    ensures status { result.status ≡ spec.status_of_ship fault }
    ensures why { spec.TellsShip fault result.why }
{
    match fault {
        ShipFault::Words(fault) => words_outcome("ship", words, &fault),
        ShipFault::Webhook(url) => Outcome {
            status: Status::Configuration,
            why: Some(Refusal::Webhook(url)),
        },
    }
}
