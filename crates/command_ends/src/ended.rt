// How a run ended, and why.
ghost use Rattle.std.specs.Prelude.{◌≡◌};
ghost use Rattle.command_ends.specs.Why as spec;

use crate::status::Status;
use command_options::{FileNames, WordsFault, bad_word};
use front_config::LoadFault;
use refusal_text::{Refusal, refusal_text};
use std::alloc::{AllocError, Global};

/// How a top call ended.
#[derive(Debug, Drop)]
pub struct Ended {
    pub status: Status,
    /// What was refused, where there is more to tell than the status.
    pub why: Option<Refusal>,
    /// How many events of the requests that were answered were too large for a line, and are left out.
    pub too_large: u64,
    /// How many bytes a line could have, 0 where no words said so.
    pub max_event: u64,
}

// The line on events that are left out, with a line feed, or nothing.
fn too_large_line(alloc: Global, events: u64, most: u64) -> Result<String, AllocError> {
    if events == 0 {
        return Ok(String::new(alloc));
    }
    let noun = if events == 1 { "event" } else { "events" };
    format!(in alloc; "apiaggd: {events} {noun} left out: longer than {most} bytes\n")
}

impl Ended {
    /// An end before any request was answered.
    pub fn of(status: Status, why: Option<Refusal>) -> Ended
        ensures status { result.status ≡ status }
        ensures why { result.why ≡ why }
        ensures none { result.too_large ≡ 0 }
    {
        Ended {
            status,
            why,
            too_large: 0,
            max_event: 0,
        }
    }

    // The status's word and, where something was refused, what and why.
    fn status_lines(
        &self,
        alloc: Global,
        words: &[String],
        reason: Option<&str>,
    ) -> Result<String, AllocError> {
        let Some(word) = self.status.word() else {
            return Ok(String::new(alloc));
        };
        match &self.why {
            Some(why) => {
                let line = refusal_text(alloc, words, why, reason)?;
                format!(in alloc; "apiaggd: {word}\napiaggd: {line}\n")
            }
            None => format!(in alloc; "apiaggd: {word}\n"),
        }
    }

    /// What standard error says of it, each line with a line feed: the status's word and, where something was refused,
    /// what, with the system's reason; and how many events are left out, if any are. Nothing where all was done.
    pub fn told(
        &self,
        alloc: Global,
        words: &[String],
        reason: Option<&str>,
    ) -> Result<String, AllocError> {
        let status = self.status_lines(alloc, words, reason)?;
        let events = too_large_line(alloc, self.too_large, self.max_event)?;
        format!(in alloc; "{status}{events}")
    }

    /// The system's reason for what was refused, by those that the files, the input and the output give for their last
    /// fault.
    pub fn reason(
        &self,
        files: Option<&'static str>,
        input: Option<&'static str>,
        output: Option<&'static str>,
    ) -> Option<&'static str> {
        match &self.why {
            Some(Refusal::Files { .. }) => files,
            Some(Refusal::UnreadToken(name)) if name.as_str() == "-" => input,
            Some(Refusal::UnreadToken(_)) => files,
            Some(Refusal::Input) => input,
            Some(Refusal::Output) => output,
            _ => None,
        }
    }
}

/// How words and files are refused.
#[derive(Debug, Drop)]
pub struct Outcome {
    pub status: Status,
    pub why: Option<Refusal>,
}

/// How a run of that command ends whose words are refused.
pub fn words_outcome(command: &str, words: &Vec<String>, fault: &WordsFault) -> Outcome
    ensures status { result.status ≡ spec.status_of_words fault.now }
    ensures why { spec.TellsWords fault.now result.why }
{
    match fault {
        WordsFault::Usage => Outcome {
            status: Status::Usage,
            why: Some(Refusal::Words(bad_word(command, words.as_slice()))),
        },
        WordsFault::Limits { option, number } => Outcome {
            status: Status::Configuration,
            why: Some(Refusal::Limits {
                option: *option,
                number: *number,
            }),
        },
        WordsFault::NoMemory => Outcome {
            status: Status::NoMemory,
            why: None,
        },
    }
}

fn status_of_load(fault: &LoadFault) -> Status
    ensures { result ≡ spec.status_of_load fault.now }
{
    match fault {
        LoadFault::ReadFault { .. } => Status::ReadFault,
        LoadFault::BadFile { .. } => Status::Configuration,
        LoadFault::NoMemory => Status::NoMemory,
    }
}

fn why_of_load(names: FileNames, fault: LoadFault) -> Option<Refusal>
    ensures { result ≡ spec.why_of_load names fault }
{
    match fault {
        LoadFault::ReadFault { which } => Some(Refusal::Files {
            names,
            fault: LoadFault::ReadFault { which },
        }),
        LoadFault::BadFile { which, fault } => Some(Refusal::Files {
            names,
            fault: LoadFault::BadFile { which, fault },
        }),
        LoadFault::NoMemory => None,
    }
}

/// How a run ends whose files were not loaded.
pub fn load_outcome(names: FileNames, fault: LoadFault) -> Outcome
    ensures status { result.status ≡ spec.status_of_load fault }
    ensures why { result.why ≡ spec.why_of_load names fault }
{
    let status = status_of_load(&fault);
    Outcome {
        status,
        why: why_of_load(names, fault),
    }
}
