// What the sinks write to: a file, and links in memory that answer every post.
use front_base::Address;
use front_ports::{ByteSink, Dial, Link, PortFault, Source};
use std::alloc::Global;
use std::io::Write;
use std::mem;

/// A sink over a writer.
#[derive(Drop)]
pub struct WriterSink<W> {
    pub writer: W,
    pub faults: u64,
}

impl<W: Write> ByteSink for WriterSink<W> {
    ghost use Rattle.std.specs.Prelude.{None, []};

    ghost written = { λ s. W.contents s.writer };

    ghost write_faults = { λ s. s.faults };

    ghost inward = { λ s. record { told = None; faults = 0; mark = []; wishes = None } };

    fn write(&mut self, piece: &[u8]) -> Result<usize, PortFault> {
        match self.writer.write(piece) {
            Ok(count) if count > 0 => Ok(count),
            _ => {
                self.faults = self.faults.saturating_add(1);
                Err(PortFault)
            }
        }
    }
}

// What each link says.
const REPLY: &[u8] = b"HTTP/1.1 200 OK\r\nContent-Length: 0\r\n\r\n";

/// A link that copies what is sent into one buffer, and answers 200.
#[derive(Drop)]
pub struct LoopLink {
    buffer: Vec<u8>,
    given: usize,
    faults: u64,
}

impl Source for LoopLink {
    ghost use Rattle.std.specs.Prelude.{None, [], ◌∷◌};

    ghost left = { λ _. None };

    ghost read_faults = { λ _. 0 };

    ghost outward = { λ link. record { told = None; faults = link.faults; mark = 0 ∷ []; wishes = None } };

    fn read(&mut self, buf: &mut [u8]) -> Result<usize, PortFault> {
        let rest = REPLY.get(self.given..).unwrap_or(b"");
        let count = rest.len().min(buf.len());
        buf[..count].copy_from_slice(&rest[..count]);
        self.given = self.given.saturating_add(count);
        Ok(count)
    }
}

impl ByteSink for LoopLink {
    ghost use Rattle.std.specs.Prelude.{None, [], ◌∷◌};

    ghost written = { λ _. None };

    ghost write_faults = { λ link. link.faults };

    ghost inward = { λ _. record { told = None; faults = 0; mark = 0 ∷ []; wishes = None } };

    fn write(&mut self, piece: &[u8]) -> Result<usize, PortFault> {
        self.buffer.clear();
        match self.buffer.extend_from_slice(piece) {
            Ok(()) => Ok(piece.len()),
            Err(_) => {
                self.faults = self.faults.saturating_add(1);
                Err(PortFault)
            }
        }
    }
}

impl Link for LoopLink {
    ghost use Rattle.std.specs.Prelude.{refl};

    ghost number = { λ _. 0 };

    ghost outward_is = { λ link. refl };

    ghost inward_is = { λ link. refl };
}

/// A dial of such links, which have one buffer in turn.
#[derive(Drop)]
pub struct LoopDial {
    buffer: Vec<u8>,
    link_faults: u64,
}

impl LoopDial {
    pub fn new(alloc: Global) -> LoopDial {
        LoopDial {
            buffer: Vec::new(alloc),
            link_faults: 0,
        }
    }
}

impl Dial for LoopDial {
    ghost use Rattle.std.specs.Prelude.{None};

    type K = LoopLink;

    ghost calls = { λ _. None };

    ghost faults = { λ _. 0 };

    ghost link_faults = { λ dial. dial.link_faults };

    fn dial(&mut self, _to: Address, _long_running: bool) -> Result<LoopLink, PortFault> {
        let alloc = *self.buffer.allocator();
        Ok(LoopLink {
            buffer: mem::replace(&mut self.buffer, Vec::new(alloc)),
            given: 0,
            faults: 0,
        })
    }

    fn done(&mut self, link: LoopLink) {
        if link.faults > 0 {
            self.link_faults = self.link_faults.saturating_add(1);
        }
        self.buffer = link.buffer;
    }
}
