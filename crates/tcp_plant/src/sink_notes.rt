use crate::sink_share::SinkShare;
use front_base::Line;
use std::io::Eprint;
use std::rt;
use std::sync::Wait;
use truncate_backend::{Notes, TryNote};

/// Counts the tries of one sink in what all its handles share, and keeps no account of its own.
#[derive(Drop)]
pub struct SinkNotes<'b, R> {
    rt: &'b R,
    share: &'b SinkShare,
}

impl<'b, R> SinkNotes<'b, R> {
    pub(crate) fn new(rt: &'b R, share: &'b SinkShare) -> SinkNotes<'b, R> {
        SinkNotes { rt, share }
    }
}

impl<'b, R: Wait + rt::Clock + Eprint> Notes for SinkNotes<'b, R> {
    ghost use Rattle.std.specs.Prelude.{None, true};

    ghost tries = { λ _. None };

    ghost room = { λ _. None };

    ghost has_room = { λ _ _. true };

    fn free(&self, _lines: &[Line]) -> bool {
        true
    }

    fn note(&mut self, _lines: &[Line], note: TryNote) {
        self.share
            .tried(self.rt, u64::from(note.lines), note.answer);
    }
}
