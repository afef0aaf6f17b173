ghost use Rattle.std.specs.Prelude.{◌≡◌, ◌≤◌, IfOk, length};

use crate::memory::NoMemory;
use crate::text::Bytes;
use std::alloc::Global;
use std::marker::Model;

/// The most bytes that an audit line may have, without its line feed.
pub const MOST_LINE_BYTES: u64 = 4_194_304;

/// An audit line that a bay offers to a sink. It has at most `MOST_LINE_BYTES` bytes.
#[derive(Debug, Drop)]
pub struct Line {
    /// The connection thread that offers it.
    pub bay: u16,
    /// How many lines this bay offered to this sink before.
    pub number: u64,
    /// The event's text, without a line feed.
    pub bytes: Bytes,
}

impl Model for Line {
    ghost use Rattle.front_base.specs.Line as seen;
    ghost use Rattle.front_base.specs.declared.line.TheConstants.{MOST_LINE_BYTES};
    ghost use Rattle.std.specs.Prelude.{◌≤◌, length};

    ghost Value = { seen.Line };

    ghost view = { λ l. record { bay = l.bay; number = l.number; bytes = l.bytes } };

    ghost invariant = { λ l. length l.bytes ≤ MOST_LINE_BYTES };
}

impl Line {
    /// An equal line.
    pub fn copy(&self, alloc: Global) -> Result<Line, NoMemory>
        ensures { IfOk result (λ line. line ≡ self.now) }
    {
        Ok(Line {
            bay: self.bay,
            number: self.number,
            bytes: self.bytes.copy(alloc)?,
        })
    }
}
