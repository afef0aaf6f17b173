// Why lists are not fresh, on standard error.
use client_dial::LastError;
use resource_fetch::Listing;
use resources_command::{Notes, unlisted_text};
use std::io::Eprint;
use system_errors::reason_of_number;

/// Says on standard error why a group version was not listed, with the system's reason for a call that failed since the last one. It tells
/// nothing.
#[derive(Drop)]
pub struct Reasons<'n> {
    host: &'n HostRuntime,
    last: &'n LastError,
}

impl<'n> Reasons<'n> {
    pub fn new(host: &'n HostRuntime, last: &'n LastError) -> Reasons<'n> {
        Reasons { host, last }
    }
}

impl<'n> Notes for Reasons<'n> {
    ghost use Rattle.std.specs.Prelude.{None};

    ghost noted = { λ _. None };

    fn note(&mut self, group_version: &str, why: &Listing) {
        let reason = reason_of_number(self.last.number());
        self.last.clear();
        if let Ok(text) = unlisted_text(self.host.alloc(), group_version, why, reason) {
            let text = text.as_str();
            let _ = eprint!(self.host; "{text}");
        }
    }
}
