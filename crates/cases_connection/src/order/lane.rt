// A lane that tells which event it is offered.
use front_base::Line;
use std::io::Write;
use truncate_backend::{Lane, Offer};

/// A lane of that sink, which takes every line, or fails each of them.
#[derive(Drop)]
pub struct TellingLane<W> {
    sink: &'static str,
    out: W,
    fails: bool,
    faults: u64,
}

impl<W: Write> TellingLane<W> {
    pub fn new(sink: &'static str, out: W, fails: bool) -> TellingLane<W> {
        TellingLane {
            sink,
            out,
            fails,
            faults: 0,
        }
    }
}

// The stage that the line of an event names.
fn stage_in(line: &str) -> Option<&str> {
    let (_, rest) = line.split_once("\"stage\":\"")?;
    let (stage, _) = rest.split_once("\"")?;
    Some(stage)
}

// Writes which sink is offered which event.
fn tell<W: Write>(out: &mut W, sink: &str, line: &Line) {
    let text = str::from_utf8(line.bytes.as_slice()).unwrap_or("");
    let stage = stage_in(text).unwrap_or("?");
    let _ = out.write_all(sink.as_bytes());
    let _ = out.write_all(b" is offered ".as_slice());
    let _ = out.write_all(stage.as_bytes());
    let _ = out.write_all(b"\n".as_slice());
}

impl<W: Write> Lane for TellingLane<W> {
    ghost use Rattle.std.specs.Prelude.{None, [], false};

    ghost tells = { λ l. record { accepted = None; tried = None; fulls = 0; faults = l.faults; sink = None } };

    ghost bay = { λ _. None };

    ghost home = { λ _. [] };

    ghost queued = { λ _. false };

    fn offer(&mut self, line: Line) -> Offer {
        tell(&mut self.out, self.sink, &line);
        if self.fails {
            self.faults = self.faults.saturating_add(1);
            Offer::Failed(line)
        } else {
            Offer::Taken
        }
    }
}
