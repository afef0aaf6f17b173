// What a diary notes, in words.
use audit_core::{LinkNote, Outcome};
use session_core::Exchange;
use std::alloc::Global;

fn link_word(link: LinkNote) -> &'static str {
    match link {
        LinkNote::NotUsed => "not used",
        LinkNote::Whole(_) => "whole",
        LinkNote::Streamed(_) => "streamed",
        LinkNote::DialFailed => "not dialed",
        LinkNote::BadReply => "bad reply",
        LinkNote::Cut => "cut",
        LinkNote::LinkFault => "fault",
    }
}

fn outcome_word(outcome: Outcome) -> &'static str {
    match outcome {
        Outcome::Taken => "taken",
        Outcome::Full => "full",
        Outcome::Failed => "failed",
        Outcome::TooLarge { .. } => "too large",
    }
}

/// The number and the status of an exchange, what became of its link, and what became of its events.
pub fn exchange_line(alloc: Global, x: &Exchange) -> Option<String> {
    let number = x.facts.id.number;
    let status = x.facts.status;
    let mut line = format!(in alloc; "{number} {status}, {}", link_word(x.link)).ok()?;
    for note in x.offers.as_slice() {
        line.push_str(", ").ok()?;
        line.push_str(outcome_word(note.outcome)).ok()?;
    }
    Some(line)
}
