// The files of the system.
ghost use Rattle.std.specs.Prelude.{◌≤◌, IfOk, vec_len};

use front_base::{Bytes, MOST_FILE_BYTES, Text};
use front_ports::{FileFail, Files};
use std::alloc::Global;
use std::io::Read;
use std::{fs, rt};
use system_errors::reason_of;

/// Files by their paths. It counts the reads that fail, and keeps the path of the last one, as long as memory suffices, and
/// the system's reason.
#[derive(Drop)]
pub struct SystemFiles<'r, R> {
    rt: &'r R,
    faults: u64,
    failed: Option<Text>,
    // a path could not be kept
    lost: bool,
    reason: Option<&'static str>,
}

impl<'r, R: rt::Files> SystemFiles<'r, R> {
    pub fn new(rt: &'r R) -> Self {
        SystemFiles {
            rt,
            faults: 0,
            failed: None,
            lost: false,
            reason: None,
        }
    }

    /// Why the last file could not be read that couldn't.
    pub fn reason(&self) -> Option<&'static str> {
        self.reason
    }
}

// All bytes of a reader that has at most `MOST_FILE_BYTES`. Where a read fails, the system's reason is kept.
fn read_all<R: Read>(
    alloc: Global,
    reader: &mut R,
    reason: &mut Option<&'static str>,
) -> Result<Vec<u8>, FileFail>
    ensures { IfOk result (λ bytes. vec_len bytes ≤ MOST_FILE_BYTES) }
{
    let mut bytes = Vec::new(alloc);
    let mut buf = [0u8; 4096];
    while (bytes.len() as u64) <= MOST_FILE_BYTES {
        match reader.read(&mut buf) {
            Ok(0) => return Ok(bytes),
            Ok(count) => bytes.extend_from_slice(&buf[..count])?,
            Err(error) => {
                *reason = Some(reason_of(&error));
                return Err(FileFail::Fault);
            }
        }
    }
    Err(FileFail::TooLong)
}

fn read_file<R: rt::Files>(
    alloc: Global,
    rt: &R,
    name: &str,
    reason: &mut Option<&'static str>,
) -> Result<Vec<u8>, FileFail>
    ensures { IfOk result (λ bytes. vec_len bytes ≤ MOST_FILE_BYTES) }
{
    match fs::open(rt, name) {
        Ok(file) => {
            let mut file = file;
            read_all(alloc, &mut file, reason)
        }
        Err(error) => {
            *reason = Some(reason_of(&error));
            Err(FileFail::Fault)
        }
    }
}

impl<'r, R: rt::Files> Files for SystemFiles<'r, R> {
    ghost use Rattle.std.specs.Prelude.{Some, None, if◌then◌else◌};

    ghost files = { λ _. None };

    ghost faults = { λ f. f.faults };

    ghost failed = { λ f. (if f.lost then None else Some f.failed) };

    fn read(&mut self, alloc: Global, name: &str) -> Result<Bytes, FileFail> {
        match read_file(alloc, self.rt, name, &mut self.reason) {
            Ok(bytes) => Ok(Bytes::new(bytes)),
            Err(FileFail::Fault) => {
                match Text::copy_of(alloc, name) {
                    Ok(path) => self.failed = Some(path),
                    Err(_) => self.lost = true,
                }
                self.faults = self.faults.saturating_add(1);
                Err(FileFail::Fault)
            }
            Err(fail) => Err(fail),
        }
    }
}
