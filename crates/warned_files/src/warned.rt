// Files, with a warning of what nobody reads in them.
ghost use Rattle.std.specs.Prelude.{◌≡◌};

use crate::endpoints::unread_in_endpoints;
use crate::files::{unread_in_policy, unread_in_services};
use crate::places::Places;
use command_options::names::{ENDPOINTS, POLICY, SERVICES};
use front_base::{Bytes, NoMemory};
use front_ports::{FileFail, Files};
use std::alloc::Global;
use std::io::Eprint;

/// Files that are read once each when a program starts. Where one of them is that of an option, the members and rows of it that nobody
/// reads are said on standard error: kube-apiserver does so for unknown fields of its policy file.
#[derive(Drop)]
pub struct WarnedFiles<'w, R, F> {
    rt: &'w R,
    words: &'w [String],
    files: F,
}

impl<'w, R: Eprint, F: Files> WarnedFiles<'w, R, F> {
    /// These files, of which words name some.
    pub fn new(rt: &'w R, words: &'w [String], files: F) -> WarnedFiles<'w, R, F>
    where
        F: Drop,
        ensures { result.files ≡ files }
    {
        WarnedFiles { rt, words, files }
    }

    /// The files themselves.
    pub fn files(&self) -> &F
        ensures { result.now ≡ self.now.files }
    {
        &self.files
    }
}

// Whether these words give that option this value.
fn names_file(words: &[String], option: &str, name: &str) -> bool {
    let mut follows = false;
    for word in words {
        if follows && word.as_str() == name {
            return true;
        }
        follows = false;
        if let Some(given) = word.strip_prefix("--") {
            follows = given == option;
            if given.split_once('=') == Some((option, name)) {
                return true;
            }
        }
    }
    false
}

fn say_places<R: Eprint>(rt: &R, option: &str, name: &str, places: &Places) {
    for place in places.shown.as_slice() {
        let place = place.as_str();
        let _ = eprintln!(rt; "apiaggd: warning: --{option}={name}: {place}: not read");
    }
    if places.more > 0 {
        let more = places.more;
        let _ = eprintln!(rt; "apiaggd: warning: --{option}={name}: {more} more: not read");
    }
}

fn say_found<R: Eprint>(rt: &R, option: &str, name: &str, found: Result<Places, NoMemory>) {
    match found {
        Ok(places) => say_places(rt, option, name, &places),
        Err(_) => {
            let _ = eprintln!(rt;
                "apiaggd: warning: --{option}={name}: not looked through: out of memory"
            );
        }
    }
}

// Says what nobody reads of a file of these words.
fn warn_of<R: Eprint>(rt: &R, alloc: Global, words: &[String], name: &str, bytes: &[u8]) {
    if names_file(words, POLICY, name) {
        say_found(rt, POLICY, name, unread_in_policy(alloc, bytes));
    }
    if names_file(words, SERVICES, name) {
        say_found(rt, SERVICES, name, unread_in_services(alloc, bytes));
    }
    if names_file(words, ENDPOINTS, name) {
        say_found(rt, ENDPOINTS, name, unread_in_endpoints(alloc, bytes));
    }
}

impl<'w, R: Eprint, F: Files> Files for WarnedFiles<'w, R, F> {
    ghost files = { λ w. F.files w.files };

    ghost faults = { λ w. F.faults w.files };

    ghost failed = { λ w. F.failed w.files };

    fn read(&mut self, alloc: Global, name: &str) -> Result<Bytes, FileFail> {
        let read = self.files.read(alloc, name);
        if let Ok(bytes) = &read {
            warn_of(self.rt, alloc, self.words, name, bytes.as_slice());
        }
        read
    }
}
