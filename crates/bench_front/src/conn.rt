// A connection that gives one text again and again and holds nothing, and a log that holds nothing either.
use front_ports::{ByteSink, Conn, PortFault, Source};

/// Gives the text so many times, a read at most once, and takes all that is written.
#[derive(Drop)]
pub struct RepeatConn<'t> {
    text: &'t [u8],
    given: usize,
    turns: u32,
}

impl<'t> RepeatConn<'t> {
    pub fn new(text: &'t [u8], turns: u32) -> RepeatConn<'t> {
        RepeatConn {
            text,
            given: text.len(),
            turns,
        }
    }

    // Begins the text once more, where it was given whole and turns are left.
    fn turn(&mut self) {
        if self.given >= self.text.len() && self.turns > 0 {
            self.turns -= 1;
            self.given = 0;
        }
    }
}

impl<'t> Source for RepeatConn<'t> {
    ghost use Rattle.std.specs.Prelude.{None, [], ◌∷◌};

    ghost left = { λ _. None };

    ghost read_faults = { λ _. 0 };

    ghost outward = { λ _. record { told = None; faults = 0; mark = 127 ∷ 0 ∷ 0 ∷ 1 ∷ []; wishes = None } };

    fn read(&mut self, buf: &mut [u8]) -> Result<usize, PortFault> {
        self.turn();
        let rest = self.text.get(self.given..).unwrap_or(b"");
        let count = rest.len().min(buf.len());
        buf[..count].copy_from_slice(&rest[..count]);
        self.given = self.given.saturating_add(count);
        Ok(count)
    }
}

impl<'t> ByteSink for RepeatConn<'t> {
    ghost use Rattle.std.specs.Prelude.{None, [], ◌∷◌};

    ghost written = { λ _. None };

    ghost write_faults = { λ _. 0 };

    ghost inward = { λ _. record { told = None; faults = 0; mark = 127 ∷ 0 ∷ 0 ∷ 1 ∷ []; wishes = None } };

    fn write(&mut self, piece: &[u8]) -> Result<usize, PortFault> {
        Ok(piece.len())
    }
}

impl<'t> Conn for RepeatConn<'t> {
    ghost use Rattle.std.specs.Prelude.{refl, None, [], ◌∷◌};

    ghost from = { λ _. 127 ∷ 0 ∷ 0 ∷ 1 ∷ [] };

    ghost wishes = { λ _. None };

    ghost outward_is = { λ c. refl };

    ghost inward_is = { λ c. refl };

    fn peer(&self) -> [u8; 4] {
        [127, 0, 0, 1]
    }

    fn wishes_to_end(&mut self) -> bool {
        false
    }
}

/// Takes all that is written.
#[derive(Clone, Copy, Debug, Drop)]
pub struct NoSink;

impl ByteSink for NoSink {
    ghost use Rattle.std.specs.Prelude.{None, []};

    ghost written = { λ _. None };

    ghost write_faults = { λ _. 0 };

    ghost inward = { λ _. record { told = None; faults = 0; mark = []; wishes = None } };

    fn write(&mut self, piece: &[u8]) -> Result<usize, PortFault> {
        Ok(piece.len())
    }
}
