// The file with a token, which may be standard input.
ghost use Rattle.std.specs.Prelude.{◌≤◌, IfOk, vec_len};

use command_ends::SystemFiles;
use front_base::{Bytes, MOST_FILE_BYTES};
use front_ports::{FileFail, Files};
use std::alloc::Global;
use std::io::Read;
use system_errors::reason_of;

/// Files by their paths, of which `-` is standard input. It counts the reads that fail.
#[derive(Drop)]
pub struct TokenFiles<'r> {
    host: &'r HostRuntime,
    files: SystemFiles<'r, HostRuntime>,
    faults: u64,
    reason: Option<&'static str>,
}

impl<'r> TokenFiles<'r> {
    pub fn new(host: &'r HostRuntime) -> TokenFiles<'r> {
        TokenFiles {
            host,
            files: SystemFiles::new(host),
            faults: 0,
            reason: None,
        }
    }

    /// Why the last read failed that did.
    pub fn reason(&self) -> Option<&'static str> {
        match self.reason {
            Some(reason) => Some(reason),
            None => self.files.reason(),
        }
    }
}

// All bytes of a reader that has at most `MOST_FILE_BYTES`. Where a read fails, the system's reason is kept.
fn read_all<R: Read>(
    alloc: Global,
    reader: &mut R,
    reason: &mut Option<&'static str>,
) -> Result<Vec<u8>, FileFail>
    ensures { IfOk result (λ bytes. vec_len bytes ≤ MOST_FILE_BYTES) }
{
    let mut bytes = Vec::new(alloc);
    let mut buf = [0u8; 4096];
    while (bytes.len() as u64) <= MOST_FILE_BYTES {
        match reader.read(&mut buf) {
            Ok(0) => return Ok(bytes),
            Ok(count) => bytes.extend_from_slice(&buf[..count])?,
            Err(error) => {
                *reason = Some(reason_of(&error));
                return Err(FileFail::Fault);
            }
        }
    }
    Err(FileFail::TooLong)
}

impl<'r> Files for TokenFiles<'r> {
    ghost use Rattle.std.specs.Prelude.{None};

    ghost files = { λ _. None };

    ghost faults = { λ f. f.faults };

    ghost failed = { λ _. None };

    fn read(&mut self, alloc: Global, name: &str) -> Result<Bytes, FileFail> {
        let got = if name == "-" {
            read_all(alloc, &mut self.host.stdin(), &mut self.reason).map(Bytes::new)
        } else {
            self.files.read(alloc, name)
        };
        if let Err(FileFail::Fault) = got {
            self.faults = self.faults.saturating_add(1);
        }
        got
    }
}
