// The summary of what became of lines.
ghost use Rattle.std.specs.Prelude.{◌≡◌, ◌≤◌, IfOk, string_bytes};
ghost use Rattle.log_ship.specs.Summaries as spec;

use crate::end::ShipEnd;
use crate::ship::Shipment;
use front_ports::{ByteSink, write_all};
use std::alloc::{AllocError, Global};

/// Whether a summary was written.
#[derive(Clone, Copy, Debug, PartialEq, Eq)]
pub enum Summed {
    /// It was.
    Written,
    /// There is none, since the input's end was not reached.
    NotDue,
    /// A write failed, after a prefix of it.
    WriteFault,
    /// Nothing was written.
    NoMemory,
}

// How many lines were read, posted and lost, and how many posts there were: a line each, with a line feed.
fn summary_text(alloc: Global, shipment: Shipment) -> Result<String, AllocError>
    ensures { IfOk result (λ text. string_bytes text ≡ spec.summary_of shipment) }
{
    let lines = shipment.lines;
    let posted = shipment.tally.posted;
    let lost = shipment.tally.lost;
    let posts = shipment.tally.posts;
    format!(in alloc; "lines {lines}\nposted {posted}\nlost {lost}\nposts {posts}\n")
}

fn write_summary<O: ByteSink>(alloc: Global, shipment: Shipment, out: &mut O) -> Summed
    ensures writes { spec.Writes shipment (O.written out.old) (O.written out.new) (O.write_faults out.old) (O.write_faults out.new) result }
    ensures later { O.write_faults out.old ≤ O.write_faults out.new }
{
    let Ok(text) = summary_text(alloc, shipment) else {
        return Summed::NoMemory;
    };
    match write_all(out, text.as_bytes()) {
        Ok(()) => Summed::Written,
        Err(_) => Summed::WriteFault,
    }
}

/// Writes the summary where the input's end was reached.
pub(crate) fn sum_up<O: ByteSink>(alloc: Global, shipment: Shipment, out: &mut O) -> Summed
    ensures sums { spec.Sums shipment (O.written out.old) (O.written out.new) (O.write_faults out.old) (O.write_faults out.new) result }
    ensures later { O.write_faults out.old ≤ O.write_faults out.new }
{
    match shipment.end {
        ShipEnd::Done => write_summary(alloc, shipment, out),
        _ => Summed::NotDue,
    }
}
