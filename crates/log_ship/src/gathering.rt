ghost use Rattle.std.specs.Prelude.{◌≡◌, ◌<◌, ◌≤◌, ◌++◌, ◌∷◌, ◌^◌, [], true, IfOk, length};
ghost use Rattle.batch_backend.specs.Batches.{IsBatch};
ghost use Rattle.log_ship.specs.Cuts as spec;

use batch_backend::Limits;
use front_base::{Line, NoMemory};
use std::alloc::Global;
use std::marker::Model;

/// The lines of one batch, as they come.
#[derive(Debug, Drop)]
pub struct Gathering {
    limits: Limits,
    lines: Vec<Line>,
    // How many bytes the lines have.
    bytes: u64,
}

impl Model for Gathering {
    ghost use Rattle.std.specs.Prelude.{◌≡◌, ◌<◌, ◌≤◌, ◌*◌, ◌^◌, length, vec_capacity};
    ghost use Rattle.truncate_backend.specs.Tries.{bytes_of};
    ghost use Rattle.batch_backend.specs.Batches.{IsBatch};
    ghost use Rattle.log_ship.specs.Cuts as seen;

    ghost Value = { seen.Gathered };

    ghost view = { λ g. record { limits = g.limits; lines = g.lines.items } };

    ghost invariant = { λ g. (g.bytes ≡ bytes_of g.lines.items) × IsBatch g.limits g.lines.items × (0 < g.limits.lines) × (g.limits.lines < 2 ^ 32)
        × (length g.lines.items ≤ g.limits.lines) × (g.bytes ≤ 4194304 * length g.lines.items)
        × (g.limits.lines ≤ vec_capacity g.lines) };
}

impl Gathering {
    /// There is no line yet. It takes all of its memory here: room for the lines of a batch, of which the limits allow one at least.
    pub fn new(alloc: Global, limits: Limits) -> Result<Gathering, NoMemory>
        requires { 0 < limits.lines }
        ensures { IfOk result (λ g. g ≡ record { limits = limits; lines = [] }) }
    {
        Ok(Gathering {
            limits,
            lines: Vec::with_capacity(alloc, limits.lines as usize)?,
            bytes: 0,
        })
    }

    /// The lines of the batch.
    pub fn lines(&self) -> &[Line]
        ensures value { result.now ≡ self.now.lines }
        ensures few { length result.now < 2 ^ 32 }
        ensures within { IsBatch self.now.limits result.now }
    {
        self.lines.as_slice()
    }

    /// Whether it could take a line of so many bytes.
    pub fn could_take(&self, size: u64) -> bool
        requires { size ≤ 4194304 }
        ensures { result ≡ spec.could_take self.now.limits self.now.lines size }
    {
        self.lines.is_empty()
            || self.lines.len() < self.limits.lines as usize
                && self.bytes + size <= self.limits.bytes
    }

    /// Adds a line that it could take.
    pub fn push(&mut self, line: Line)
        requires { spec.could_take self.old.limits self.old.lines (length line.bytes) ≡ true }
        ensures { self.new ≡ record { limits = self.old.limits; lines = self.old.lines ++ line ∷ [] } }
    {
        let size = line.bytes.as_slice().len() as u64;
        self.lines.push_reserved(line);
        self.bytes += size;
    }

    /// Takes all lines off, and keeps their room.
    pub fn clear(&mut self)
        ensures { self.new ≡ record { limits = self.old.limits; lines = [] } }
    {
        self.lines.clear();
        self.bytes = 0;
    }
}
