ghost use Rattle.std.specs.Prelude.{◌≡◌, ◌<◌, ◌^◌, true, false, IfOk, OnErr, List, ℕ, Some, length, is_some, option_map};
ghost use Rattle.front_ports.specs.Cause.{Rose};
ghost use Rattle.log_sink.specs.Logs.{Logged, NotLogged, log_notes, log_out, log_tells};
ghost use Rattle.log_sink.specs.Texts.{log_text};

use crate::buffer::Buffer;
use front_base::{Line, NoMemory};
use front_ports::ByteSink;
use std::alloc::Global;
use truncate_backend::{BatchSink, Notes, SinkFault, TryAnswer, TryNote};

/// Writes the lines of a try, each with a line feed, and notes how many bytes went out.
///
/// A try for whose note there is no room writes nothing, and from then on the log tells no tries.
#[derive(Drop)]
pub struct LogSink<W, N> {
    buffer: Buffer<W>,
    notes: N,
    told: bool,
    faults: u64,
}

impl<W: ByteSink + Drop, N: Notes + Drop> LogSink<W, N> {
    /// A log over this sink of bytes. It takes all of its memory here.
    pub fn start(alloc: Global, out: W, notes: N) -> Result<LogSink<W, N>, NoMemory>
        ensures out { IfOk result (λ log. W.written (log_out log) ≡ W.written out) }
        ensures faults { IfOk result (λ log. W.write_faults (log_out log) ≡ W.write_faults out) }
        ensures notes { IfOk result (λ log. log_notes log ≡ notes) }
        ensures tells { IfOk result (λ log.
            log_tells W.written N.tries log
            ≡ record { tries = N.tries notes; faults = 0; refusals = 0; text = log_text; sent = option_map Some (W.written out) }) }
    {
        Ok(LogSink {
            buffer: Buffer::new(alloc, out)?,
            notes,
            told: true,
            faults: 0,
        })
    }

    /// What it wrote to.
    pub fn out(&self) -> &W
        ensures { result.now ≡ log_out self.now }
    {
        &self.buffer.out
    }

    /// The account of its tries.
    pub fn notes(&self) -> &N
        ensures { result.now ≡ log_notes self.now }
    {
        &self.notes
    }

    fn try_lines(&mut self, lines: &[Line]) -> Result<(), SinkFault>
        requires { length lines.now < 2 ^ 32 }
        ensures logged { Logged (log_tells W.written N.tries self.old) (W.written (log_out self.old)) lines.now result
            (log_tells W.written N.tries self.new) (W.written (log_out self.new)) }
        ensures full { N.has_room (log_notes self.old) lines.now ≡ false → NotLogged (W.written (log_out self.old))
            result (log_tells W.written N.tries self.new) (W.written (log_out self.new)) }
        ensures told { N.has_room (log_notes self.old) lines.now ≡ true
            → is_some (log_tells W.written N.tries self.new).tries ≡ is_some (log_tells W.written N.tries self.old).tries }
        ensures room { N.room (log_notes self.new) ≡ N.room (log_notes self.old) }
        ensures cause { OnErr result (N.has_room (log_notes self.old) lines.now ≡ true
            → Rose (W.write_faults (log_out self.old)) (W.write_faults (log_out self.new))) }
    {
        if !self.notes.free(lines) {
            self.told = false;
            self.faults = self.faults.saturating_add(1);
            return Err(SinkFault::Port);
        }
        match self.buffer.write_lines(lines) {
            Ok(sent) => {
                let note = TryNote {
                    lines: lines.len() as u32,
                    sent,
                    answer: TryAnswer::Done,
                };
                self.notes.note(lines, note);
                Ok(())
            }
            Err(sent) => {
                let note = TryNote {
                    lines: lines.len() as u32,
                    sent,
                    answer: TryAnswer::Port,
                };
                self.notes.note(lines, note);
                self.faults = self.faults.saturating_add(1);
                Err(SinkFault::Port)
            }
        }
    }
}

impl<W: ByteSink + Drop, N: Notes + Drop> BatchSink for LogSink<W, N> {
    ghost use Rattle.std.specs.Prelude.{◌≡◌, ◌<◌, ◌^◌, true, false, OnErr, List, ℕ, length, is_some};
    ghost use Rattle.front_ports.specs.Cause.{Rose};
    ghost use Rattle.truncate_backend.specs.Tries.{Tried};
    ghost use Rattle.log_sink.specs.Logs.{Logged, NotLogged, log_notes, log_out, log_tells};
    ghost use Rattle.log_sink.specs.Texts.{Accounts};

    ghost tells = { λ log. log_tells W.written N.tries log };

    fn put(&mut self, lines: &[Line]) -> Result<(), SinkFault>
        requires { (0 < length lines.now) × (length lines.now < 2 ^ 32) }
        ensures tried { Tried (log_tells W.written N.tries self.old) lines.now result (log_tells W.written N.tries self.new) }

        // How many bytes of the text went out, and that the note says so.
        ensures logged { Logged (log_tells W.written N.tries self.old) (W.written (log_out self.old)) lines.now result
            (log_tells W.written N.tries self.new) (W.written (log_out self.new)) }

        // Without room for its note, and with it.
        ensures full { N.has_room (log_notes self.old) lines.now ≡ false → NotLogged (W.written (log_out self.old))
            result (log_tells W.written N.tries self.new) (W.written (log_out self.new)) }
        ensures told { N.has_room (log_notes self.old) lines.now ≡ true
            → is_some (log_tells W.written N.tries self.new).tries ≡ is_some (log_tells W.written N.tries self.old).tries }
        ensures room { N.room (log_notes self.new) ≡ N.room (log_notes self.old) }
        ensures cause { OnErr result (N.has_room (log_notes self.old) lines.now ≡ true
            → Rose (W.write_faults (log_out self.old)) (W.write_faults (log_out self.new))) }

        // The bytes written stay those of the tries.
        ensures accounts { (before : List ℕ)
            → Accounts before (W.written (log_out self.old)) (log_tells W.written N.tries self.old).tries
            → Accounts before (W.written (log_out self.new)) (log_tells W.written N.tries self.new).tries }
    {
        self.try_lines(lines)
    }
}
