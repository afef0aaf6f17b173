use std::io;
use std::io::ErrorKind;
use std::sync::atomic::{AtomicI32, Ordering};

// No error of the system's has this number.
const NONE: i32 = 0;

/// Why a dial, or a call on one of its links, failed last. It is shared, so that whoever lent it can say so while the dial is
/// in use elsewhere.
#[derive(Drop)]
pub struct DialFault {
    code: AtomicI32,
}

// The system's number of an error. One of a limit is the system's of a timeout.
fn code_of(error: &io::Error) -> i32 {
    match error.raw_os_error() {
        Some(code) => code,
        None => match error.kind() {
            ErrorKind::TimedOut => libc::ETIMEDOUT,
            _ => libc::EIO,
        },
    }
}

impl DialFault {
    /// Nothing has failed.
    pub fn new() -> DialFault {
        DialFault {
            code: AtomicI32::new(NONE),
        }
    }

    /// The last error, or none where nothing failed. It stays where later calls succeed.
    pub fn last_error(&self) -> Option<io::Error> {
        match self.code.load(Ordering::SeqCst) {
            NONE => None,
            code => Some(io::Error::from_raw_os_error(code)),
        }
    }

    pub(crate) fn note(&self, error: &io::Error) {
        self.code.store(code_of(error), Ordering::SeqCst);
    }
}
