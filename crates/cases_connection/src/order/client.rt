// A client that tells when it is written to.
use front_ports::{ByteSink, Conn, PortFault, Source};
use std::io::Write;

/// Gives one text, and takes all that is written.
#[derive(Drop)]
pub struct TellingConn<'t, W> {
    text: &'t [u8],
    given: usize,
    out: W,
}

impl<'t, W: Write> TellingConn<'t, W> {
    pub fn new(text: &'t [u8], out: W) -> TellingConn<'t, W> {
        TellingConn {
            text,
            given: 0,
            out,
        }
    }
}

impl<'t, W: Write> Source for TellingConn<'t, W> {
    ghost use Rattle.std.specs.Prelude.{None, [], ◌∷◌};

    ghost left = { λ _. None };

    ghost read_faults = { λ _. 0 };

    ghost outward = { λ _. record { told = None; faults = 0; mark = 127 ∷ 0 ∷ 0 ∷ 1 ∷ []; wishes = None } };

    fn read(&mut self, buf: &mut [u8]) -> Result<usize, PortFault> {
        let rest = self.text.get(self.given..).unwrap_or(b"");
        let count = rest.len().min(buf.len());
        buf[..count].copy_from_slice(&rest[..count]);
        self.given = self.given.saturating_add(count);
        Ok(count)
    }
}

impl<'t, W: Write> ByteSink for TellingConn<'t, W> {
    ghost use Rattle.std.specs.Prelude.{None, [], ◌∷◌};

    ghost written = { λ _. None };

    ghost write_faults = { λ _. 0 };

    ghost inward = { λ _. record { told = None; faults = 0; mark = 127 ∷ 0 ∷ 0 ∷ 1 ∷ []; wishes = None } };

    fn write(&mut self, piece: &[u8]) -> Result<usize, PortFault> {
        let _ = self.out.write_all(b"the client is written to\n");
        Ok(piece.len())
    }
}

impl<'t, W: Write> Conn for TellingConn<'t, W> {
    ghost use Rattle.std.specs.Prelude.{refl, None, [], ◌∷◌};

    ghost from = { λ _. 127 ∷ 0 ∷ 0 ∷ 1 ∷ [] };

    ghost wishes = { λ _. None };

    ghost outward_is = { λ c. refl };

    ghost inward_is = { λ c. refl };

    fn peer(&self) -> [u8; 4] {
        [127, 0, 0, 1]
    }

    fn wishes_to_end(&mut self) -> bool {
        false
    }
}
