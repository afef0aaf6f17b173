// An output that keeps nothing.
ghost use Rattle.std.specs.Prelude.{None, []};

use front_ports::{ByteSink, PortFault};

// It takes all, and tells nothing.
#[derive(Drop)]
pub struct Void;

impl ByteSink for Void {
    ghost written = { λ _. None };

    ghost write_faults = { λ _. 0 };

    ghost inward = { λ _. record { told = None; faults = 0; mark = []; wishes = None } };

    fn write(&mut self, piece: &[u8]) -> Result<usize, PortFault> {
        Ok(piece.len())
    }
}
