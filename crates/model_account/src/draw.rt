use crate::wants::Wants;
use audit_core::{LinkNote, Sink};
use truncate_backend::TryAnswer;

/// A step, by what tells it from others: its bay, and moments in microseconds.
#[derive(Clone, Copy)]
pub enum Draw {
    Begin(u16, Wants, u64),
    Find(u16, u64),
    Offer(u16, Sink, TryAnswer),
    Started(u16, u16, u64),
    Finish(u16, LinkNote, u64),
    Change(u16),
    Take(Sink),
    Cut(Sink, TryAnswer),
}

/// The kind of a step as a word.
pub fn kind_of(draw: Draw) -> &'static str {
    match draw {
        Draw::Begin(_, _, _) => "begin",
        Draw::Find(_, _) => "find",
        Draw::Offer(_, _, _) => "offer",
        Draw::Started(_, _, _) => "started",
        Draw::Finish(_, _, _) => "finish",
        Draw::Change(_) => "change",
        Draw::Take(_) => "take",
        Draw::Cut(_, _) => "cut",
    }
}
