// The log that is open, which follows its path.
use crate::log_target::{FileId, LogTarget, named_by};
use crate::whole_lines::LineWriter;
use std::alloc::Global;
use std::fs::File;
use std::io::Print;
use std::{io, rt};
use system_errors::reason_of;

/// How often it is looked whether the path still names the open file, in milliseconds.
const LOOK_INTERVAL: u64 = 1000;

/// What became of the file of a log since somebody looked last.
#[derive(Clone, Copy, Debug)]
pub(crate) enum Followed {
    /// The path names it, or nobody looked.
    Same,
    /// The path names another file, which is open now.
    Anew,
    /// The path names another file or none, which could not be opened for that reason. The old one is written to.
    Old(&'static str),
}

/// A log that is open, and all bays write to.
#[derive(Drop)]
pub(crate) struct OpenLog {
    path: String,
    lines: LineWriter,
    // None for the standard output, which has no path.
    id: Option<FileId>,
    // The moment before which nobody looks where the path leads, in milliseconds.
    next_look: u64,
}

impl OpenLog {
    /// Opens what this path names, as `LogTarget::open` has it.
    pub(crate) fn open<R: rt::Files<File = File>>(
        rt: &R,
        alloc: Global,
        path: &str,
    ) -> io::Result<OpenLog> {
        let own = String::from_str(alloc, path)?;
        let (target, is_cut) = LogTarget::open(rt, path)?;
        let id = target.id();
        Ok(OpenLog {
            path: own,
            lines: LineWriter::new(target, is_cut),
            id,
            next_look: 0,
        })
    }

    pub(crate) fn has_path(&self, path: &str) -> bool {
        self.path.as_str() == path
    }

    // Opens what the path names now. The next write is the first to it.
    fn reopen<R: rt::Files<File = File>>(&mut self, rt: &R) -> io::Result<()> {
        let (target, is_cut) = LogTarget::open(rt, self.path.as_str())?;
        self.id = target.id();
        self.lines = LineWriter::new(target, is_cut);
        Ok(())
    }

    /// Goes on in the file that the path names, where that isn't the open one. It looks once in a second at most. Milliseconds.
    pub(crate) fn follow<R: rt::Files<File = File>>(&mut self, rt: &R, now: u64) -> Followed {
        let Some(id) = self.id else {
            return Followed::Same;
        };
        if now < self.next_look {
            return Followed::Same;
        }
        self.next_look = now.saturating_add(LOOK_INTERVAL);
        if named_by(rt, self.path.as_str()) == Some(id) {
            return Followed::Same;
        }
        match self.reopen(rt) {
            Ok(()) => Followed::Anew,
            Err(error) => Followed::Old(reason_of(&error)),
        }
    }

    /// Writes these lines, of which the last one ends with them.
    pub(crate) fn write<R: Print>(&mut self, rt: &R, lines: &[u8]) -> io::Result<()> {
        self.lines.write(rt, lines)
    }
}
