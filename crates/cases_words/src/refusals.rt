// Refusals that no command line and no file leads to.
use crate::endings::{ended_with, said_of_own};
use crate::shelf::{given_of, names_of};
use case_rows::{bytes_of, fields};
use front_base::Text;
use front_config::LoadFault;
use http_edge::End;
use refusal_text::{Refusal, position_of};
use std::alloc::{AllocError, Global};

fn number_of(text: &str) -> u64 {
    text.parse::<u64>().unwrap_or_default()
}

fn end_of(name: &str) -> End {
    match name {
        "BadHead" => End::BadHead,
        "HeadTooLarge" => End::HeadTooLarge,
        "BadFraming" => End::BadFraming,
        "BodyTooLarge" => End::BodyTooLarge,
        "CutShort" => End::CutShort,
        "Asked" => End::Asked,
        _ => End::Ended,
    }
}

// That of a request by its number, its first byte and why no more requests come.
fn request_of(row: &str) -> Refusal {
    let (number, rest) = fields(row);
    let (byte, end) = fields(rest);
    Refusal::Request {
        number: number_of(number),
        byte: number_of(byte),
        end: end_of(end),
    }
}

fn refusal_of(alloc: Global, row: &str) -> Option<Refusal> {
    let (name, rest) = fields(row);
    match name {
        "NotUtf8" => Some(Refusal::NotUtf8),
        "Input" => Some(Refusal::Input),
        "Output" => Some(Refusal::Output),
        "NoMemory" => Some(Refusal::Files {
            names: names_of(alloc, given_of("- | - | - | -")),
            fault: LoadFault::NoMemory,
        }),
        "Request" => Some(request_of(rest)),
        "UnreadToken" => Some(Refusal::UnreadToken(Text::copy_of(alloc, rest).ok()?)),
        "BadToken" => Some(Refusal::BadToken(Text::copy_of(alloc, rest).ok()?)),
        _ => None,
    }
}

/// What is said of a run that ends with a status and a refusal: the fields are the status, the refusal, and what it names.
pub fn refused(alloc: Global, row: &str) -> Result<String, AllocError> {
    let (status, refusal) = fields(row);
    let ended = ended_with(
        status.parse::<u8>().unwrap_or_default(),
        refusal_of(alloc, refusal),
    );
    let none: [String; 0] = [];
    said_of_own(alloc, none.as_slice(), ended)
}

/// Where the byte after the bytes of the second field stands.
pub fn position(alloc: Global, row: &str) -> Result<String, AllocError> {
    let (_, before) = fields(row);
    let before = bytes_of(alloc, before);
    let place = position_of(before.as_slice());
    format!(in alloc; "{place:?}\n")
}
