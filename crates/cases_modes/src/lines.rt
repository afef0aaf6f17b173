// The lines that a bay offered to a sink, each by its stage, its audit ID and its level.
use audit_core::{OfferNote, Outcome, Sink};
use front_base::audit_id_text;
use session_core::Exchange;
use std::alloc::Global;

fn is_tried(outcome: Outcome) -> bool {
    matches!(outcome, Outcome::Taken | Outcome::Failed)
}

fn name_of(alloc: Global, exchange: &Exchange, note: &OfferNote) -> Option<String> {
    let id = audit_id_text(alloc, exchange.facts.id).ok()?;
    let level = exchange.decision.level.name();
    format!(in alloc; "{} {} {level}", note.stage.name(), id.as_str()).ok()
}

fn push_names(
    alloc: Global,
    names: &mut Vec<String>,
    exchange: &Exchange,
    sink: Sink,
    tried: bool,
) -> Option<()> {
    for note in exchange.offers.as_slice() {
        if note.sink == sink && is_tried(note.outcome) == tried {
            let name = name_of(alloc, exchange, note)?;
            names.push(name).ok()?;
        }
    }
    Some(())
}

/// The lines of these exchanges that a sink was tried with, or those that were not taken.
pub fn names_of(
    alloc: Global,
    exchanges: &[Exchange],
    sink: Sink,
    tried: bool,
) -> Option<Vec<String>> {
    let mut names = Vec::new(alloc);
    for exchange in exchanges {
        push_names(alloc, &mut names, exchange, sink, tried)?;
    }
    Some(names)
}
