// The earlier document.
ghost use Rattle.std.specs.Prelude.{◌≡◌, ◌≢◌, ◌≤◌, Some, IfOk, IfErr, OnOk, option_map};
ghost use Rattle.front_ports.specs.Cause.{Rose};
ghost use Rattle.front_ports.specs.FileMap.{KeepsFiles, Notes};
ghost use Rattle.resources_command.specs.Previous as spec;

use front_base::Text;
use front_ports::{FileFail, Files};
use group_resources::{Merged, MergedFault, read_merged};
use std::alloc::{AllocError, Global};

/// Why the file with an earlier document is refused.
#[derive(Clone, Copy, Debug, PartialEq, Eq)]
pub enum PreviousFault {
    /// It could not be read.
    NotRead,
    /// It has more than `MOST_FILE_BYTES` bytes.
    TooLong,
    /// The line of that number, from 0, is the first that is no line of a document, or has a group version that came before.
    BadLine { line: u32 },
}

/// The file with an earlier document that is refused, and why.
#[derive(Debug, Drop)]
pub struct PreviousRefusal {
    pub name: Text,
    pub fault: PreviousFault,
}

// Why there is no earlier document.
#[derive(Clone, Copy, Debug, PartialEq, Eq)]
pub enum PreviousStop {
    Refused(PreviousFault),
    NoMemory,
}

fn stop_of(fail: FileFail) -> PreviousStop
    ensures { result ≡ spec.stop_of fail }
{
    match fail {
        FileFail::Fault => PreviousStop::Refused(PreviousFault::NotRead),
        FileFail::TooLong => PreviousStop::Refused(PreviousFault::TooLong),
        FileFail::NoMemory => PreviousStop::NoMemory,
    }
}

fn merged_in(alloc: Global, bytes: &[u8]) -> Result<Merged, PreviousStop>
    ensures { spec.IsIn bytes.now result }
{
    match read_merged(alloc, bytes) {
        Ok(merged) => Ok(merged),
        Err(MergedFault::BadLine { line }) => {
            Err(PreviousStop::Refused(PreviousFault::BadLine { line }))
        }
        Err(MergedFault::NoMemory) => Err(PreviousStop::NoMemory),
    }
}

// The document of the file of that name.
pub fn read_previous<F: Files>(
    alloc: Global,
    name: &str,
    files: &mut F,
) -> Result<Merged, PreviousStop>
    ensures ok { IfOk result (spec.HasDocument (F.files files.old) name.now) }
    ensures err { IfErr result (spec.IsRefusedSo (F.files files.old) name.now (F.faults files.old) (F.faults files.new)
        (F.failed files.old) (F.failed files.new)) }
    ensures kept { KeepsFiles (F.files files.old) (F.files files.new) }
    ensures sound { OnOk result (F.faults files.new ≡ F.faults files.old) }
    ensures later { F.faults files.old ≤ F.faults files.new }
{
    match files.read(alloc, name) {
        Ok(bytes) => merged_in(alloc, bytes.as_slice()),
        Err(fail) => Err(stop_of(fail)),
    }
}

/// What a person is told of it, with a line feed: the file, and why it is refused, with the system's reason where it could not be read and
/// the system gave one. Lines are counted from 1.
pub fn previous_text(
    alloc: Global,
    refused: &PreviousRefusal,
    reason: Option<&str>,
) -> Result<String, AllocError> {
    let name = refused.name.as_str();
    match refused.fault {
        PreviousFault::NotRead => {
            let why = reason.unwrap_or("could not be read");
            format!(in alloc; "apiaggd: --previous={name}: {why}\n")
        }
        PreviousFault::TooLong => {
            format!(in alloc; "apiaggd: --previous={name}: larger than 16 MiB\n")
        }
        PreviousFault::BadLine { line } => {
            let number = line as u64 + 1;
            format!(in alloc;
                "apiaggd: --previous={name}: line {number}: not a line that resources writes, or a group version again\n"
            )
        }
    }
}
