// Steps that a generator draws, always the same for a seed.
use crate::draw::Draw;
use crate::going::Next;
use crate::model::Model;
use crate::wants::Wants;
use audit_core::{LinkNote, Sink};
use truncate_backend::TryAnswer;

#[derive(Drop)]
pub struct Dice {
    pub seed: u64,
}

impl Dice {
    // Below that number.
    fn roll(&mut self, sides: u64) -> u64 {
        self.seed = self
            .seed
            .wrapping_mul(6_364_136_223_846_793_005)
            .wrapping_add(1_442_695_040_888_963_407);
        (self.seed >> 33).checked_rem(sides).unwrap_or(0)
    }

    // One of three bays, or at times one that isn't there.
    fn bay(&mut self) -> u16 {
        match self.roll(16) {
            0 => 3,
            1..=5 => 2,
            6..=10 => 1,
            _ => 0,
        }
    }

    fn sink(&mut self) -> Sink {
        if self.roll(2) == 0 {
            Sink::Log
        } else {
            Sink::Webhook
        }
    }

    fn answer(&mut self) -> TryAnswer {
        match self.roll(8) {
            0 => TryAnswer::Port,
            1 => TryAnswer::Refused(500),
            2 => TryAnswer::BadAnswer,
            _ => TryAnswer::Done,
        }
    }

    fn wants(&mut self) -> Wants {
        match self.roll(7) {
            0 => Wants::Health,
            1 => Wants::Pod,
            2 => Wants::Secret,
            3 => Wants::Delete,
            4 => Wants::Create,
            _ => Wants::Watch,
        }
    }

    fn status(&mut self) -> u16 {
        match self.roll(4) {
            0 => 404,
            1 => 500,
            2 => 503,
            _ => 200,
        }
    }

    fn link(&mut self) -> LinkNote {
        match self.roll(8) {
            0 => LinkNote::NotUsed,
            1 => LinkNote::DialFailed,
            2 => LinkNote::Cut,
            3 => LinkNote::Whole(404),
            4 => LinkNote::Streamed(500),
            5 => LinkNote::Streamed(200),
            _ => LinkNote::Whole(200),
        }
    }

    // Mostly that moment, and else the first.
    fn moment(&mut self, now: u64) -> u64 {
        if self.roll(16) == 0 { 0 } else { now }
    }

    // Mostly all of so many changes, and else one more, or any number of them.
    fn seen(&mut self, changes: u64) -> u64 {
        match self.roll(8) {
            0 => changes.saturating_add(1),
            1 | 2 => self.roll(changes.saturating_add(1)),
            _ => changes,
        }
    }

    fn any(&mut self, bay: u16, now: u64, changes: u64) -> Draw {
        match self.roll(8) {
            0 => Draw::Begin(bay, self.wants(), now),
            1 => Draw::Find(bay, self.seen(changes)),
            2 => Draw::Started(bay, self.status(), self.moment(now)),
            3 => Draw::Finish(bay, self.link(), self.moment(now)),
            4 => Draw::Change(bay),
            5 => Draw::Take(self.sink()),
            6 => Draw::Cut(self.sink(), self.answer()),
            _ => Draw::Offer(bay, self.sink(), self.answer()),
        }
    }

    fn of_next(&mut self, bay: u16, next: Next, now: u64, changes: u64) -> Draw {
        match next {
            Next::Begin => Draw::Begin(bay, self.wants(), now),
            Next::OfferLog => Draw::Offer(bay, Sink::Log, self.answer()),
            Next::OfferHook => Draw::Offer(bay, Sink::Webhook, self.answer()),
            Next::Find => Draw::Find(bay, self.seen(changes)),
            Next::Change => Draw::Change(bay),
            Next::Start => Draw::Started(bay, self.status(), self.moment(now)),
            Next::Finish => Draw::Finish(bay, self.link(), self.moment(now)),
        }
    }

    /// Mostly what comes next of a bay or of the log, so that exchanges end, and else any step.
    pub fn draw(&mut self, model: &Model, now: u64) -> Draw {
        let bay = self.bay();
        let changes = model.changes();
        match self.roll(8) {
            0 | 1 => self.any(bay, now, changes),
            2 => Draw::Take(Sink::Log),
            3 => self.take_or_cut(),
            _ => self.of_next(bay, model.next(bay), now, changes),
        }
    }

    fn take_or_cut(&mut self) -> Draw {
        if self.roll(2) == 0 {
            Draw::Take(Sink::Log)
        } else {
            Draw::Cut(Sink::Log, self.answer())
        }
    }
}
