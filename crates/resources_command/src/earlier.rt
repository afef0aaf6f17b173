// Files, of which the one with an earlier document may be missing.
use front_base::{Bytes, Text};
use front_ports::{FileFail, Files};
use std::alloc::Global;
use std::io::{Eprint, ErrorKind};
use std::{fs, rt};

/// The system's files, of which one may be missing: it is read as an empty file then, and a warning on standard error says so. So the first
/// run of a job needs no earlier document. It tells nothing of what its files hold.
#[derive(Drop)]
pub struct EarlierFiles<'e, R, F> {
    rt: &'e R,
    files: F,
    // The file that may be missing.
    name: Option<Text>,
}

impl<'e, R: rt::Files + Eprint, F: Files> EarlierFiles<'e, R, F> {
    /// These files, of which the one of that name may be missing.
    pub fn new(rt: &'e R, files: F, name: Option<Text>) -> EarlierFiles<'e, R, F>
    where
        F: Drop,
    {
        EarlierFiles { rt, files, name }
    }

    /// The files themselves.
    pub fn files(&self) -> &F {
        &self.files
    }
}

// Whether it is the file that may be missing, and there is none.
fn is_missing<R: rt::Files>(rt: &R, own: &Option<Text>, name: &str) -> bool {
    match own {
        Some(own) if own.as_str() == name => match fs::open(rt, name) {
            Ok(_) => false,
            Err(error) => matches!(error.kind(), ErrorKind::NotFound),
        },
        _ => false,
    }
}

impl<'e, R: rt::Files + Eprint, F: Files> Files for EarlierFiles<'e, R, F> {
    ghost use Rattle.std.specs.Prelude.{None};

    ghost files = { λ _. None };

    ghost faults = { λ e. F.faults e.files };

    ghost failed = { λ e. F.failed e.files };

    fn read(&mut self, alloc: Global, name: &str) -> Result<Bytes, FileFail> {
        if is_missing(self.rt, &self.name, name) {
            let _ = eprintln!(self.rt;
                "apiaggd: warning: --previous={name}: no such file: no earlier document"
            );
            return Ok(Bytes::new(Vec::new(alloc)));
        }
        self.files.read(alloc, name)
    }
}
