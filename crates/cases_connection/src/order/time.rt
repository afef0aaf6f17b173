// A clock and a diary that tell when they are called.
use front_base::{Moment, NoMemory};
use front_ports::Clock;
use session_core::{Diary, Exchange};
use std::alloc::Global;
use std::io::Write;

/// A clock that stands still.
#[derive(Drop)]
pub struct TellingClock<W> {
    out: W,
    rests: u64,
}

impl<W: Write> TellingClock<W> {
    pub fn new(out: W) -> TellingClock<W> {
        TellingClock { out, rests: 0 }
    }
}

impl<W: Write> Clock for TellingClock<W> {
    ghost use Rattle.std.specs.Prelude.{None};

    ghost last = { λ _. 0 };

    ghost given = { λ _. None };

    ghost rests = { λ clock. clock.rests };

    fn now(&mut self) -> Moment {
        let _ = self.out.write_all(b"the clock is read\n");
        Moment::epoch()
    }

    fn rest(&mut self) {
        self.rests = self.rests.saturating_add(1);
    }
}

/// A diary that keeps nothing.
#[derive(Drop)]
pub struct TellingDiary<W> {
    pub out: W,
}

impl<W: Write> Diary for TellingDiary<W> {
    ghost use Rattle.std.specs.Prelude.{None, true};

    ghost notes = { λ _. None };

    ghost has_room = { λ _. true };

    fn ready(&mut self, alloc: Global) -> Result<(), NoMemory> {
        let _ = self.out.write_all(b"the diary makes room\n");
        Ok(())
    }

    fn note(&mut self, exchange: Exchange) {
        let _ = self.out.write_all(b"the exchange is noted\n");
    }
}
