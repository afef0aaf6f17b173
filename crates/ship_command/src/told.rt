// What a person is told of lines that were shipped, beside the summary.
use log_ship::{ShipEnd, Shipment};
use std::alloc::{AllocError, Global};

// Why the line after those that were read isn't shipped, in words.
fn reason_of(end: ShipEnd) -> Option<&'static str> {
    match end {
        ShipEnd::NotJson => Some("neither a JSON text nor an audit event"),
        ShipEnd::TooLong => Some("longer than 4194304 bytes"),
        ShipEnd::Cut => Some("cut: the log ends within it"),
        ShipEnd::Done | ShipEnd::ReadFault | ShipEnd::NumbersSpent | ShipEnd::NoMemory => None,
    }
}

fn line_text(alloc: Global, shipment: Shipment) -> Result<String, AllocError> {
    let Some(why) = reason_of(shipment.end) else {
        return Ok(String::new(alloc));
    };
    let line = shipment
        .passed
        .saturating_add(shipment.lines)
        .saturating_add(1);
    format!(in alloc; "apiaggd: line {line}: {why}\n")
}

// What became of the lines before, where no summary says it.
fn before_text(alloc: Global, shipment: Shipment) -> Result<String, AllocError> {
    if shipment.end == ShipEnd::Done {
        return Ok(String::new(alloc));
    }
    let lines = shipment.lines;
    let posted = shipment.tally.posted;
    let lost = shipment.tally.lost;
    let posts = shipment.tally.posts;
    format!(in alloc; "apiaggd: lines {lines}, posted {posted}, lost {lost}, posts {posts}\n")
}

fn lost_text(alloc: Global, shipment: Shipment, why: &str) -> Result<String, AllocError> {
    let lost = shipment.tally.lost;
    if lost == 0 {
        return Ok(String::new(alloc));
    }
    let noun = if lost == 1 { "line" } else { "lines" };
    format!(in alloc; "apiaggd: {lost} {noun} lost: {why}\n")
}

/// What standard error says of lines that were shipped, each line with a line feed: the number of the line that can't be, and why; what became of
/// those before it; and how many are lost, with the reason of the last failure, `why`. Nothing where all are posted.
pub fn told_text(alloc: Global, shipment: Shipment, why: &str) -> Result<String, AllocError> {
    let line = line_text(alloc, shipment)?;
    let before = before_text(alloc, shipment)?;
    let lost = lost_text(alloc, shipment, why)?;
    format!(in alloc; "{line}{before}{lost}")
}
