ghost use Rattle.std.specs.Prelude.{◌≡◌, ◌<◌, ◌+◌, ◌↔◌, IfOk, IsTrue, refl};
ghost use Rattle.front_ports.specs.Memory.{duplex_left, duplex_written, link_number, IsUnused};
ghost use Rattle.front_ports.specs.Memory.{duplex_read_faults, duplex_write_faults};
ghost use Rattle.front_ports.specs.MemoryStream.{duplex_stream, BeginsAsTold};

use crate::mem_duplex::MemDuplex;
use crate::mem_stream::MemStream;
use crate::script::Script;
use crate::stream::Link;
use front_base::NoMemory;
use std::alloc::Global;

/// A link to a backend in memory. Its mark is the number of its call.
pub type MemLink = MemDuplex<usize>;

impl MemLink {
    /// A link that no dial has given yet.
    pub fn new(alloc: Global, script: Script) -> Result<MemLink, NoMemory>
        ensures input { IfOk result (λ link. duplex_left link ≡ script.input) }
        ensures unused { IfOk result IsUnused }
        ensures told { IfOk result (λ link. BeginsAsTold (duplex_stream link) script) }
    {
        let stream = MemStream::new(alloc, script)?;
        Ok(MemDuplex { mark: 0, stream })
    }

    // The same link, of the call of this number.
    pub(crate) fn numbered(self, number: usize) -> MemLink
        ensures number { link_number result ≡ number }
        ensures stream { duplex_stream result ≡ duplex_stream self }
    {
        MemDuplex {
            mark: number,
            stream: self.stream,
        }
    }

    // The number of its call.
    pub(crate) fn number(&self) -> usize
        ensures { result ≡ link_number self.now }
    {
        self.mark
    }

    // Whether a read or a write failed.
    pub(crate) fn is_faulty(&self) -> bool
        ensures { IsTrue result ↔ (0 < duplex_read_faults self.now + duplex_write_faults self.now) }
    {
        self.stream.read_faults() > 0 || self.stream.output.faults() > 0
    }
}

impl Link for MemLink {
    ghost number = { link_number };

    ghost outward_is = { λ l. refl };

    ghost inward_is = { λ l. refl };
}
