ghost use Rattle.std.specs.Prelude.{◌≡◌, ◌≤◌, [], IfOk, length, nat_lt, ◌&&◌, vec_capacity};
ghost use Rattle.truncate_backend.specs.Copies.{copies_fit};
ghost use Rattle.truncate_backend.specs.Notes.{counts_of, notes_of};

use crate::copies::LineCopies;
use crate::notes::Notes;
use crate::tries::TryNote;
use front_base::{Line, NoMemory};
use std::alloc::Global;

/// Keeps tries with copies of their lines, in memory that was reserved.
#[derive(Drop)]
pub struct MemNotes {
    most_notes: usize,
    notes: Vec<TryNote>,
    copies: LineCopies,
    ghost counted: { counts_of notes.items ≡ length copies.lines },
    ghost within: { length notes.items ≤ most_notes },
    ghost reserved: { most_notes ≤ vec_capacity notes },
}

impl MemNotes {
    ghost use Rattle.truncate_backend.specs.MemoryNotes.{noted_tries, noted_room};

    /// No notes yet, with room for so many, and for so many lines of all of them and bytes of these lines.
    pub fn new(alloc: Global, notes: u64, lines: u64, bytes: u64) -> Result<MemNotes, NoMemory>
        ensures empty { IfOk result (λ n. noted_tries n ≡ []) }
        ensures room { IfOk result (λ n. noted_room n ≡ record { notes = notes; lines = lines; bytes = bytes }) }
    {
        let most_notes = notes as usize;
        Ok(MemNotes {
            most_notes,
            notes: Vec::with_capacity(alloc, most_notes)?,
            copies: LineCopies::new(alloc, lines as usize, bytes as usize)?,
        })
    }

    /// What was noted of each try, in the order of the tries.
    pub fn notes(&self) -> &[TryNote]
        ensures { result.now ≡ notes_of (noted_tries self.now) }
    {
        self.notes.as_slice()
    }

    fn fits(&self, lines: &[Line]) -> bool
        ensures { result ≡ (nat_lt (length self.now.notes.items) self.now.most_notes
            && copies_fit self.now.copies lines.now) }
    {
        self.notes.len() < self.most_notes && self.copies.fits(lines)
    }
}

impl Notes for MemNotes {
    ghost use Rattle.std.specs.Prelude.{Some};
    ghost use Rattle.truncate_backend.specs.MemoryNotes.{noted_room, noted_tries, notes_fit};

    ghost tries = { λ n. Some (noted_tries n) };

    ghost room = { λ n. Some (noted_room n) };

    ghost has_room = { notes_fit };

    fn free(&self, lines: &[Line]) -> bool {
        self.fits(lines)
    }

    fn note(&mut self, lines: &[Line], note: TryNote) {
        self.copies.copy_all(lines);
        self.notes.push_reserved(note);
    }
}
