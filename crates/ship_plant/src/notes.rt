use crate::share::PostShare;
use front_base::Line;
use std::io::Eprint;
use std::rt;
use truncate_backend::{Notes, TryNote};

/// Counts the posts of a run, and keeps no account of its own.
#[derive(Drop)]
pub struct PostNotes<'b, R> {
    rt: &'b R,
    share: &'b PostShare,
}

impl<'b, R> PostNotes<'b, R> {
    pub(crate) fn new(rt: &'b R, share: &'b PostShare) -> PostNotes<'b, R> {
        PostNotes { rt, share }
    }
}

impl<'b, R: rt::Clock + Eprint> Notes for PostNotes<'b, R> {
    ghost use Rattle.std.specs.Prelude.{None, true};

    ghost tries = { λ _. None };

    ghost room = { λ _. None };

    ghost has_room = { λ _ _. true };

    fn free(&self, _lines: &[Line]) -> bool {
        true
    }

    fn note(&mut self, lines: &[Line], note: TryNote) {
        let last = match lines.last() {
            Some(line) => line.number.saturating_add(1),
            None => 0,
        };
        self.share
            .tried(self.rt, u64::from(note.lines), last, note.answer);
    }
}
