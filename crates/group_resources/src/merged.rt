// A whole document.
ghost use Rattle.group_resources.specs.Reading as spec;

use crate::line::MergedLine;
use crate::reading::{LineStop, next_line};
use std::alloc::Global;
use std::marker::Model;

/// Why bytes are no document.
#[derive(Clone, Copy, Debug, PartialEq, Eq)]
pub enum MergedFault {
    /// The line of that number, from 0, is the first that isn't spelled as it would be written, lacks its line feed, or has a group
    /// version that came before. The number stands at its type's end.
    BadLine { line: u32 },
    NoMemory,
}

/// The lines of a document, which contracts see as a list. No two have one group version.
#[derive(Debug, Drop)]
pub struct Merged(Vec<MergedLine>);

impl Model for Merged {
    ghost use Rattle.std.specs.Prelude.{List};
    ghost use Rattle.group_resources.specs.Lines.{AreLines};
    ghost use Rattle.group_resources.specs.declared.line.MergedLine.{MergedLine};

    ghost Value = { List MergedLine };

    ghost view = { λ m. m.0.items };

    ghost invariant = { λ m. AreLines m.0.items };
}

impl Merged {
    ghost use Rattle.std.specs.Prelude.{◌≡◌, []};
    ghost use Rattle.group_resources.specs.Lines.{AreLines};

    /// No lines.
    pub fn none(alloc: Global) -> Merged
        ensures { result ≡ [] }
    {
        Merged(Vec::new(alloc))
    }

    pub fn as_slice(&self) -> &[MergedLine]
        ensures value { result.now ≡ self.now }
        ensures lines { AreLines self.now }
    {
        self.0.as_slice()
    }
}

fn fault_of(stop: LineStop, count: usize) -> MergedFault
    ensures { spec.IsFault stop count result }
{
    match stop {
        LineStop::Bad => MergedFault::BadLine {
            line: count.min(u32::MAX as usize) as u32,
        },
        LineStop::NoMemory => MergedFault::NoMemory,
    }
}

/// The lines of a document. Bytes that aren't spelled as `merged_line` writes them are refused, and no bytes are a document of no lines. The
/// time grows with the square of the number of lines.
pub fn read_merged(alloc: Global, bytes: &[u8]) -> Result<Merged, MergedFault>
    ensures { spec.Answers bytes.now result }
{
    let mut lines = Vec::new(alloc);
    let mut at = 0;
    'reading: while at < bytes.len() {
        match next_line(alloc, &bytes[at..], lines.as_slice()) {
            Ok((line, size)) => {
                let Ok(()) = lines.push(line) else {
                    return Err(MergedFault::NoMemory);
                };
                at += size;
            }
            Err(stop) => return Err(fault_of(stop, lines.len())),
        }
    }
    Ok(Merged(lines))
}
