// How the program ends, and what it says of it.
use command_ends::Status;
use std::process::ExitCode;

/// How a run of a command ended: its status, and what was refused where, in words.
#[derive(Drop)]
pub struct Ending {
    pub status: Status,
    pub why: Option<String>,
}

impl Ending {
    /// An end of which its status says all.
    pub fn of(status: Status) -> Ending {
        Ending { status, why: None }
    }
}

/// Memory ran out.
pub fn no_memory() -> Ending {
    Ending::of(Status::NoMemory)
}

/// A call of the system failed, for this reason where one is known.
pub fn port_fault(why: Option<String>) -> Ending {
    Ending {
        status: Status::PortFault,
        why,
    }
}

/// Says how a run ended, the status's word first, and gives its code.
pub fn finish(host: &HostRuntime, ending: &Ending) -> ExitCode {
    if let Some(word) = ending.status.word() {
        let _ = eprintln!(host; "apiaggd: {word}");
    }
    if let Some(why) = &ending.why {
        let why = why.as_str();
        let _ = eprintln!(host; "apiaggd: {why}");
    }
    ExitCode::from(ending.status.code())
}
