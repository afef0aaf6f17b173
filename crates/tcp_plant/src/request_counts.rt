// How many requests were answered, by the class of their code.
use std::sync::atomic::{AtomicU64, Ordering};

/// The requests of a run that were answered, and their audit events.
#[derive(Drop)]
pub struct RequestCounts {
    informational: AtomicU64,
    successful: AtomicU64,
    redirected: AtomicU64,
    client_errors: AtomicU64,
    server_errors: AtomicU64,
    events: AtomicU64,
}

/// How many requests were answered with a code of each class, and how many audit events they had.
#[derive(Clone, Copy, Debug, PartialEq, Eq)]
pub struct AnsweredCounts {
    pub informational: u64,
    pub successful: u64,
    pub redirected: u64,
    pub client_errors: u64,
    pub server_errors: u64,
    pub events: u64,
}

impl RequestCounts {
    pub fn new() -> RequestCounts {
        RequestCounts {
            informational: AtomicU64::new(0),
            successful: AtomicU64::new(0),
            redirected: AtomicU64::new(0),
            client_errors: AtomicU64::new(0),
            server_errors: AtomicU64::new(0),
            events: AtomicU64::new(0),
        }
    }

    fn class_of(&self, status: u16) -> Option<&AtomicU64> {
        match status {
            100..=199 => Some(&self.informational),
            200..=299 => Some(&self.successful),
            300..=399 => Some(&self.redirected),
            400..=499 => Some(&self.client_errors),
            500..=599 => Some(&self.server_errors),
            _ => None,
        }
    }

    /// Counts a request that was answered with this code, and its events.
    pub(crate) fn add(&self, status: u16, events: u64) {
        if let Some(class) = self.class_of(status) {
            class.fetch_add(1, Ordering::SeqCst);
        }
        self.events.fetch_add(events, Ordering::SeqCst);
    }

    pub fn counts(&self) -> AnsweredCounts {
        AnsweredCounts {
            informational: self.informational.load(Ordering::SeqCst),
            successful: self.successful.load(Ordering::SeqCst),
            redirected: self.redirected.load(Ordering::SeqCst),
            client_errors: self.client_errors.load(Ordering::SeqCst),
            server_errors: self.server_errors.load(Ordering::SeqCst),
            events: self.events.load(Ordering::SeqCst),
        }
    }
}
