// The bytes of a body, kept for an event.
ghost use Rattle.std.specs.Prelude.{◌≡◌, [], IfOk, OnOk, OnErr, option_map};
ghost use Rattle.stream_relay.specs.Keep as spec;

use front_base::NoMemory;
use std::alloc::Global;

/// The most bytes of a body that an event records.
pub const MOST_KEPT_BYTES: u64 = 4194304;

/// Counts the bytes of a body, and keeps them where they are asked for and are few enough. A body with more bytes is not
/// kept in part: what was kept of it is let go.
#[derive(Debug, Drop)]
pub struct Keep {
    total: u64,
    bytes: Option<Vec<u8>>,
}

impl Keep {
    /// No byte came yet. `asked` says that the bytes are wanted, and not their count alone. It takes no memory.
    pub fn new(alloc: Global, asked: bool) -> Keep
        ensures { spec.Keeps asked [] result }
    {
        Keep {
            total: 0,
            bytes: if asked { Some(Vec::new(alloc)) } else { None },
        }
    }

    /// How many bytes came. The count stands at its type's end.
    pub fn total(&self) -> u64
        ensures { result ≡ spec.total_of self.now }
    {
        self.total
    }

    /// All bytes that came, where they were asked for and are at most `MOST_KEPT_BYTES`.
    pub fn body(&self) -> Option<&[u8]>
        ensures { option_map (λ bytes. bytes.now) result ≡ spec.body_of self.now }
    {
        match &self.bytes {
            Some(bytes) => Some(bytes.as_slice()),
            None => None,
        }
    }

    // These bytes came. Out of memory, they are neither counted nor kept.
    pub(crate) fn add(&mut self, piece: &[u8]) -> Result<(), NoMemory>
        ensures ok { OnOk result (spec.KeepsMore self.old self.new piece.now) }
        ensures err { OnErr result (spec.KeepsMore self.old self.new []) }
    {
        let total = self.total.saturating_add(piece.len() as u64);
        if MOST_KEPT_BYTES < total {
            self.bytes = None;
        }
        if let Some(bytes) = &mut self.bytes {
            bytes.extend_from_slice(piece)?;
        }
        self.total = total;
        Ok(())
    }
}
