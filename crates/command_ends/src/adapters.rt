// A reader and a writer as a source and a sink.
ghost use Rattle.std.specs.Prelude.{◌≡◌, None, []};

use front_ports::{ByteSink, PortFault, Source};
use std::io::{Read, Write};
use system_errors::reason_of;

/// A source over a reader. It counts the reads that fail, and keeps the system's reason of the last one.
#[derive(Drop)]
pub struct ReaderSource<R> {
    reader: R,
    faults: u64,
    reason: Option<&'static str>,
}

impl<R: Read> ReaderSource<R> {
    ghost use Rattle.command_ends.specs.Adapters.{source_reader, source_faults};

    pub fn new(reader: R) -> Self
        ensures reader { source_reader result ≡ reader }
        ensures fresh { source_faults result ≡ 0 }
    {
        ReaderSource {
            reader,
            faults: 0,
            reason: None,
        }
    }

    /// Why the last read failed that did.
    pub fn reason(&self) -> Option<&'static str> {
        self.reason
    }
}

impl<R: Read> Source for ReaderSource<R> {
    ghost left = { λ s. R.remaining s.reader };

    ghost read_faults = { λ s. s.faults };

    ghost outward = { λ s. record { told = None; faults = 0; mark = []; wishes = None } };

    fn read(&mut self, buf: &mut [u8]) -> Result<usize, PortFault> {
        match self.reader.read(buf) {
            Ok(count) => Ok(count),
            Err(error) => {
                self.reason = Some(reason_of(&error));
                self.faults = self.faults.saturating_add(1);
                Err(PortFault)
            }
        }
    }
}

/// A sink over a writer. It counts the writes that fail, and a write of nothing is one. It keeps the reason of the last one.
#[derive(Drop)]
pub struct WriterSink<W> {
    writer: W,
    faults: u64,
    reason: Option<&'static str>,
}

impl<W: Write> WriterSink<W> {
    ghost use Rattle.command_ends.specs.Adapters.{sink_writer, sink_faults};

    pub fn new(writer: W) -> Self
        ensures writer { sink_writer result ≡ writer }
        ensures fresh { sink_faults result ≡ 0 }
    {
        WriterSink {
            writer,
            faults: 0,
            reason: None,
        }
    }

    /// Why the last write failed that did.
    pub fn reason(&self) -> Option<&'static str> {
        self.reason
    }
}

impl<W: Write> ByteSink for WriterSink<W> {
    ghost written = { λ s. W.contents s.writer };

    ghost write_faults = { λ s. s.faults };

    ghost inward = { λ s. record { told = None; faults = 0; mark = []; wishes = None } };

    fn write(&mut self, piece: &[u8]) -> Result<usize, PortFault> {
        let reason = match self.writer.write(piece) {
            Ok(count) if count > 0 => return Ok(count),
            Ok(_) => "nothing was written",
            Err(error) => reason_of(&error),
        };
        self.reason = Some(reason);
        self.faults = self.faults.saturating_add(1);
        Err(PortFault)
    }
}
