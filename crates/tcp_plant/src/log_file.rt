ghost use Rattle.std.specs.Prelude.{◌≡◌, [], None, IfOk};
ghost use Rattle.tcp_plant.specs.Handles.{file_faults};

use crate::sink_share::SinkShare;
use crate::whole_lines::{HeldBytes, lines_len};
use front_ports::{ByteSink, PortFault};
use std::alloc::Global;
use std::fs::File;
use std::io::{Eprint, Print};
use std::sync::Wait;
use std::{io, rt};

/// A file that is written at its end, or the standard output. It counts the writes that fail.
///
/// All logs of a run share one open file and its lock. Bytes are held until their line ends, and then a line goes out in one write,
/// which is continued under the lock where it took a part. Where a write ended within a line, the next one begins with a line feed.
/// Where the path names another file than the open one, lines go to that file, a second later at most: it is made where there is
/// none, and standard error reports it.
#[derive(Drop)]
pub struct LogFile<'b, R> {
    rt: &'b R,
    share: &'b SinkShare,
    held: HeldBytes,
    faults: u64,
}

impl<'b, R: rt::Files<File = File> + Wait> LogFile<'b, R> {
    /// The file of this path, which is made where there is none, with mode 0600, and never cut, or the standard output for the path
    /// `-`. A FIFO is opened to be read too, so that neither the opening nor a write waits for a reader without end: a pipe that
    /// takes no byte for a second fails. Another path than that of the share's log is an error of an invalid argument.
    pub fn open(
        rt: &'b R,
        alloc: Global,
        path: &str,
        share: &'b SinkShare,
    ) -> io::Result<LogFile<'b, R>>
        ensures { IfOk result (λ file. file_faults file ≡ 0) }
    {
        share.open_log(rt, alloc, path)?;
        Ok(LogFile {
            rt,
            share,
            held: HeldBytes::new(alloc),
            faults: 0,
        })
    }
}

impl<'b, R: Print + Wait + rt::Files<File = File> + rt::Clock + Eprint> LogFile<'b, R> {
    // Writes what is held and then these lines.
    fn write_lines(&mut self, lines: &[u8]) -> io::Result<()>
        ensures { self.new.faults ≡ self.old.faults }
    {
        if self.held.is_empty() {
            return self.share.write(self.rt, lines);
        }
        self.held.hold(lines)?;
        self.share.write(self.rt, self.held.as_slice())
    }

    fn take(&mut self, piece: &[u8]) -> io::Result<()>
        ensures { self.new.faults ≡ self.old.faults }
    {
        let length = lines_len(piece);
        if length > 0 {
            let written = self.write_lines(&piece[..length]);
            self.held.let_go();
            written?;
        }
        self.held.hold(&piece[length..])
    }
}

impl<'b, R: Print + Wait + rt::Files<File = File> + rt::Clock + Eprint> ByteSink
    for LogFile<'b, R> {
    ghost written = { λ _. None };

    ghost write_faults = { file_faults };

    ghost inward = { λ _. record { told = None; faults = 0; mark = []; wishes = None } };

    fn write(&mut self, piece: &[u8]) -> Result<usize, PortFault> {
        match self.take(piece) {
            Ok(()) => Ok(piece.len()),
            Err(error) => {
                self.held.let_go();
                self.share.fail(&error);
                self.faults = self.faults.saturating_add(1);
                Err(PortFault)
            }
        }
    }
}
