// What is said of a run.
use command_ends::{Ended, Outcome, Status};
use refusal_text::Refusal;
use std::alloc::{AllocError, Global};

// That of a code, where it is one.
fn status_of(code: u8) -> Status {
    match code {
        2 => Status::Usage,
        3 => Status::Configuration,
        4 => Status::ReadFault,
        5 => Status::PortFault,
        6 => Status::NoMemory,
        7 => Status::WriteFault,
        8 => Status::NumbersSpent,
        9 => Status::Input,
        10 => Status::Log,
        11 => Status::NotDelivered,
        12 => Status::NothingListed,
        _ => Status::Done,
    }
}

/// A run that ended with the status of that code, and why.
pub fn ended_with(status: u8, why: Option<Refusal>) -> Ended {
    Ended::of(status_of(status), why)
}

/// The status of a run of these words, and what is said of it where the system gives no reason.
pub fn said_of_ended(alloc: Global, words: &[String], ended: &Ended) -> Result<String, AllocError> {
    match ended.told(alloc, words, None) {
        Ok(text) => format!(in alloc; "{}\n{text}", ended.status.code()),
        Err(fault) => Err(fault),
    }
}

/// The same of a run that is nobody else's.
pub fn said_of_own(alloc: Global, words: &[String], ended: Ended) -> Result<String, AllocError> {
    let said = said_of_ended(alloc, words, &ended);
    drop(ended);
    said
}

/// The same of a run that was refused before it began.
pub fn said_of(alloc: Global, words: &[String], outcome: Outcome) -> Result<String, AllocError> {
    let Outcome { status, why } = outcome;
    said_of_own(alloc, words, Ended::of(status, why))
}
