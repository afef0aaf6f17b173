ghost use Rattle.std.specs.Prelude.{◌≡◌, ◌∷◌, [], true, List, Bool, Option, length};
ghost use Rattle.front_base.specs.Line as base;
ghost use Rattle.front_ports.specs.Told.{Adds};
ghost use Rattle.truncate_backend.specs.Notes.{NotesRoom};
ghost use Rattle.truncate_backend.specs.Tries.{Try};

use crate::tries::TryNote;
use front_base::Line;

/// An account of the tries of a sink.
pub trait Notes {
    /// The tries that were noted, where they are told.
    ghost tries: { Self → Option (List Try) };

    /// How much was reserved for notes, where that is a bound. No call changes it.
    ghost room: { Self → Option NotesRoom };

    /// Whether there is room to note one more try, with these lines.
    ghost has_room: { Self → List base.Line → Bool };

    fn free(&self, lines: &[Line]) -> bool
        ensures { result ≡ has_room self.now lines.now };

    fn note(&mut self, lines: &[Line], note: TryNote)
        requires free { has_room self.old lines.now ≡ true }
        requires counted { note.lines ≡ length lines.now }
        ensures fixed { room self.new ≡ room self.old }
        ensures noted { Adds (tries self.old) (tries self.new) (record { lines = lines.now; note = note } ∷ []) };
}

/// Keeps no account. It has always room.
#[derive(Debug, Drop)]
pub struct NoNotes;

impl Notes for NoNotes {
    ghost use Rattle.std.specs.Prelude.{None, true};

    ghost tries = { λ _. None };

    ghost room = { λ _. None };

    ghost has_room = { λ _ _. true };

    fn free(&self, _lines: &[Line]) -> bool {
        true
    }

    fn note(&mut self, _lines: &[Line], _note: TryNote) {}
}
