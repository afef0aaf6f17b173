use std::io;
use std::io::ErrorKind;
use std::sync::atomic::{AtomicI32, Ordering};
use system_errors::number_of;

/// Why the last call failed that did, of all dials and links that share it.
#[derive(Drop)]
pub struct LastError {
    // The system's number, 0 for none.
    number: AtomicI32,
}

impl LastError {
    /// No call failed.
    pub fn new() -> LastError {
        LastError {
            number: AtomicI32::new(0),
        }
    }

    /// The system's number of the last error, 0 where there was none.
    pub fn number(&self) -> i32 {
        self.number.load(Ordering::SeqCst)
    }

    /// Forgets what failed.
    pub fn clear(&self) {
        self.number.store(0, Ordering::SeqCst);
    }

    pub(crate) fn note(&self, error: &io::Error) {
        let number = match error.kind() {
            ErrorKind::TimedOut => libc::ETIMEDOUT,
            _ => number_of(error),
        };
        self.number.store(number, Ordering::SeqCst);
    }
}
