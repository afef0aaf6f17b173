ghost use Rattle.std.specs.Prelude.{◌≡◌, ◌++◌, ◌∷◌, [], true, IfOk};
ghost use Rattle.front_base.specs.Line as base;
ghost use Rattle.truncate_backend.specs.Copies.{copies_fit};

use front_base::{Line, NoMemory};
use std::alloc::Global;
use std::marker::Model;

// Which line a copy is of, and how many bytes it has.
#[derive(Clone, Copy, Debug)]
pub struct Entry {
    pub bay: u16,
    pub number: u64,
    pub length: usize,
}

/// Copies of lines, in room that was reserved: their bytes one after another, and an entry for each.
#[derive(Drop)]
pub struct LineCopies {
    entries: Vec<Entry>,
    bytes: Vec<u8>,
    most_lines: usize,
    most_bytes: usize,
}

impl Model for LineCopies {
    ghost use Rattle.std.specs.Prelude.{◌≡◌, ◌≤◌, length, vec_capacity};
    ghost use Rattle.truncate_backend.specs.Copies as seen;

    ghost Value = { seen.Copies };

    ghost view = { λ c. record {
      lines = seen.lines_at c.entries.items c.bytes.items;
      most_lines = c.most_lines;
      most_bytes = c.most_bytes;
    } };

    ghost invariant = { λ c. (seen.lengths_of c.entries.items ≡ length c.bytes.items)
        × (length c.entries.items ≤ c.most_lines) × (c.most_lines ≤ vec_capacity c.entries)
        × (length c.bytes.items ≤ c.most_bytes) × (c.most_bytes ≤ vec_capacity c.bytes) };
}

impl LineCopies {
    /// No copies yet, with room for so many lines and so many of their bytes.
    pub fn new(alloc: Global, lines: usize, bytes: usize) -> Result<LineCopies, NoMemory>
        ensures { IfOk result (λ c. c ≡ record { lines = []; most_lines = lines; most_bytes = bytes }) }
    {
        Ok(LineCopies {
            entries: Vec::with_capacity(alloc, lines)?,
            bytes: Vec::with_capacity(alloc, bytes)?,
            most_lines: lines,
            most_bytes: bytes,
        })
    }

    /// Whether there is room for copies of these lines too.
    pub fn fits(&self, lines: &[Line]) -> bool
        ensures { result ≡ copies_fit self.now lines.now }
    {
        if self.most_lines - self.entries.len() < lines.len() {
            return false;
        }
        let mut left = self.most_bytes - self.bytes.len();
        for line in lines {
            let length = line.bytes.as_slice().len();
            if left < length {
                return false;
            }
            left -= length;
        }
        true
    }

    /// Keeps a copy of this line.
    pub fn copy(&mut self, line: &Line)
        requires { copies_fit self.old (line.now ∷ []) ≡ true }
        ensures { self.new ≡ record self.old { lines = self.old.lines ++ line.now ∷ [] } }
    {
        let bytes = line.bytes.as_slice();
        self.entries.push_reserved(Entry {
            bay: line.bay,
            number: line.number,
            length: bytes.len(),
        });
        match self.bytes.extend_from_slice(bytes) {
            Ok(()) => {}
            Err(_) => unreachable!(),
        }
    }

    /// Keeps copies of these lines.
    pub fn copy_all(&mut self, lines: &[Line])
        requires { copies_fit self.old lines.now ≡ true }
        ensures { self.new ≡ record self.old { lines = self.old.lines ++ lines.now } }
    {
        for line in lines {
            self.copy(line);
        }
    }
}
