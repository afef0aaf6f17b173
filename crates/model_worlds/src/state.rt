use crate::items::Items;
use apiservice_table::Change;
use audit_core::{Errand, LinkNote, OfferNote, Sink};
use front_base::{Level, Line, Moment, Stage};
use stage_event::Facts;
use std::marker::Model;
use truncate_backend::{Fit, TryNote};

/// The limits of a batch.
#[derive(Clone, Copy, Debug, PartialEq, Eq)]
pub struct Limits {
    /// The most lines.
    pub lines: u32,
    /// The most bytes of lines, where there are two lines or more.
    pub bytes: u64,
}

/// Lines that were written at once, with what was noted.
#[derive(Drop)]
pub struct Try {
    pub lines: Items<Line>,
    pub note: TryNote,
}

impl Model for Try {
    ghost use Rattle.truncate_backend.specs.Tries as seen;

    ghost Value = { seen.Try };

    ghost view = { λ t. record { lines = t.lines; note = t.note } };
}

/// A sink, with what each bay gave it, by the bay's number. A sink with a buffer has no `own_tries`, and one that is
/// written to at once has nothing else.
#[derive(Drop)]
pub struct SinkState {
    /// The lines in the buffer.
    pub contents: Items<Line>,
    /// All lines that its writer took from the buffer.
    pub taken: Items<Line>,
    /// Those of them that were not tried yet.
    pub pending: Items<Line>,
    pub tries: Items<Try>,
    /// The lines of each bay that the buffer took.
    pub accepted: Items<Items<Line>>,
    /// How often the buffer had no room, for each bay.
    pub fulls: Items<u64>,
    /// The tries of each bay, of one line each.
    pub own_tries: Items<Items<Try>>,
}

/// An event that a sink is due and was not offered yet, with what is written of it: at most `MOST_LINE_BYTES` bytes.
#[derive(Drop)]
pub struct Waiting {
    pub sink: Sink,
    pub stage: Stage,
    pub fit: Fit,
}

impl Model for Waiting {
    ghost use Rattle.audit_core.specs.Offers as seen;
    ghost use Rattle.event_offers.specs.Offering.{IsShort};

    ghost Value = { seen.Due };

    ghost view = { λ w. record { sink = w.sink; stage = w.stage; fit = w.fit } };

    ghost invariant = { λ w. IsShort w.fit };
}

/// What is known of a request, its answer and its offers.
#[derive(Drop)]
pub struct Exchange {
    pub level: Level,
    pub facts: Facts,
    pub errand: Errand,
    /// The change that it asks for, if it asks for one.
    pub asked: Option<Change>,
    pub is_head: bool,
    /// Whether managed fields are left out of what is kept of its bodies.
    pub managed: bool,
    /// How many changes the look at the table saw.
    pub seen: u64,
    pub link: LinkNote,
    pub notes: Items<OfferNote>,
}

/// How far an exchange has come.
#[derive(Clone, Copy, Debug, PartialEq, Eq)]
pub struct Phase {
    /// The table was looked at.
    pub found: bool,
    /// A strict sink could not write the event of the request's arrival.
    pub failed: bool,
    /// The change that the request asks for was decided.
    pub decided: bool,
    /// With which status the reply started, where that is noted.
    pub started: Option<u16>,
    /// The request was answered.
    pub finished: bool,
    /// The last moment that its steps gave.
    pub last: Moment,
}

/// An exchange that is not over.
#[derive(Drop)]
pub struct Open {
    pub exchange: Exchange,
    pub phase: Phase,
    /// The offers that come next, in order.
    pub waiting: Items<Waiting>,
}

/// A connection thread.
#[derive(Drop)]
pub struct Bay {
    /// The number of its next request.
    pub number: u64,
    /// How many changes of the table it has seen.
    pub seen: u64,
    /// The exchanges that are over, in order.
    pub closed: Items<Exchange>,
    pub current: Option<Open>,
}

/// What the bays share.
#[derive(Drop)]
pub struct Shared {
    /// The changes of the table that were made, in order.
    pub changes: Items<Change>,
    pub log: SinkState,
    pub hook: SinkState,
}

/// The whole.
#[derive(Drop)]
pub struct State {
    pub shared: Shared,
    pub bays: Items<Bay>,
}
