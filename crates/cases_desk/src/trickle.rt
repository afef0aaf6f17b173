// An output that takes some bytes at a time.
ghost use Rattle.std.specs.Prelude.{None, []};

use front_ports::{ByteSink, PortFault};

/// A sink that takes at most `most` bytes in a write, and fails after so many writes. It is opaque.
#[derive(Drop)]
pub struct Trickle {
    pub bytes: Vec<u8>,
    pub most: usize,
    pub writes: u64,
    pub faults: u64,
}

impl ByteSink for Trickle {
    ghost written = { λ _. None };

    ghost write_faults = { λ t. t.faults };

    ghost inward = { λ _. record { told = None; faults = 0; mark = []; wishes = None } };

    fn write(&mut self, piece: &[u8]) -> Result<usize, PortFault> {
        let count = piece.len().min(self.most);
        if self.writes == 0
            || count == 0
            || self.bytes.extend_from_slice(&piece[..count]).is_err()
        {
            self.faults = self.faults.saturating_add(1);
            return Err(PortFault);
        }
        self.writes -= 1;
        Ok(count)
    }
}
