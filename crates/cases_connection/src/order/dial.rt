// A dial and a link that tell when they are called.
use front_base::Address;
use front_ports::{ByteSink, Dial, Link, PortFault, Source};
use std::io::Write;
use std::mem;

const REPLY: &[u8] = b"HTTP/1.1 200 OK\r\nContent-Length: 2\r\n\r\n{}";

/// A link that gives one whole reply.
#[derive(Drop)]
pub struct TellingLink<W> {
    out: Option<W>,
    given: usize,
}

fn tell<W: Write>(out: &mut Option<W>, text: &[u8]) {
    if let Some(out) = out {
        let _ = out.write_all(text);
    }
}

impl<W: Write> Source for TellingLink<W> {
    ghost use Rattle.std.specs.Prelude.{None, [], ◌∷◌};

    ghost left = { λ _. None };

    ghost read_faults = { λ _. 0 };

    ghost outward = { λ _. record { told = None; faults = 0; mark = 0 ∷ []; wishes = None } };

    fn read(&mut self, buf: &mut [u8]) -> Result<usize, PortFault> {
        tell(&mut self.out, b"the link is read\n");
        let rest = REPLY.get(self.given..).unwrap_or(b"");
        let count = rest.len().min(buf.len());
        buf[..count].copy_from_slice(&rest[..count]);
        self.given = self.given.saturating_add(count);
        Ok(count)
    }
}

impl<W: Write> ByteSink for TellingLink<W> {
    ghost use Rattle.std.specs.Prelude.{None, [], ◌∷◌};

    ghost written = { λ _. None };

    ghost write_faults = { λ _. 0 };

    ghost inward = { λ _. record { told = None; faults = 0; mark = 0 ∷ []; wishes = None } };

    fn write(&mut self, piece: &[u8]) -> Result<usize, PortFault> {
        tell(&mut self.out, b"the link is written to\n");
        Ok(piece.len())
    }
}

impl<W: Write> Link for TellingLink<W> {
    ghost use Rattle.std.specs.Prelude.{refl};

    ghost number = { λ _. 0 };

    ghost outward_is = { λ link. refl };

    ghost inward_is = { λ link. refl };
}

/// A dial of such links, one at a time.
#[derive(Drop)]
pub struct TellingDial<W> {
    out: W,
    of_link: Option<W>,
}

impl<W: Write> TellingDial<W> {
    pub fn new(out: W, of_link: W) -> TellingDial<W> {
        TellingDial {
            out,
            of_link: Some(of_link),
        }
    }
}

impl<W: Write + Drop> Dial for TellingDial<W> {
    ghost use Rattle.std.specs.Prelude.{None};

    type K = TellingLink<W>;

    ghost calls = { λ _. None };

    ghost faults = { λ _. 0 };

    ghost link_faults = { λ _. 0 };

    fn dial(&mut self, _to: Address, long_running: bool) -> Result<TellingLink<W>, PortFault> {
        let line: &[u8] = if long_running {
            b"a backend is dialed for a long-running request\n"
        } else {
            b"a backend is dialed\n"
        };
        let _ = self.out.write_all(line);
        Ok(TellingLink {
            out: mem::replace(&mut self.of_link, None),
            given: 0,
        })
    }

    fn done(&mut self, link: TellingLink<W>) {
        let _ = self.out.write_all(b"the link is handed back\n");
        self.of_link = link.out;
    }
}
