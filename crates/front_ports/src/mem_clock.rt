ghost use Rattle.std.specs.Prelude.{◌≡◌, ◌≤◌, ◌+◌, ◌-◌, ◌^◌, min, [], ◌∷◌, Some};
ghost use Rattle.front_ports.specs.Clocks.{LosesAtEnd, moment_at};
ghost use Rattle.front_ports.specs.Told.{Grows};

use crate::clock::Clock;
use front_base::{MOMENT_END, Moment};

/// A clock in memory, which goes on by equal steps and tells all moments that it has given.
#[derive(Debug, Drop)]
pub struct MemClock {
    start: Moment,
    step: u64,
    calls: u64,
    last: Moment,
    rests: u64,
    ghost behind: { last ≤ moment_at start step calls },
}

// The moment after so many steps.
fn step_on(start: Moment, step: u64, count: u64) -> Moment
    ensures { result ≡ moment_at start step count }
{
    let micros = start.micros().saturating_add(count.saturating_mul(step));
    match Moment::new(micros.min(MOMENT_END - 1)) {
        Some(moment) => moment,
        None => unreachable!(),
    }
}

impl MemClock {
    ghost use Rattle.front_ports.specs.MemoryClock.{clock_start, clock_step, clock_calls, clock_last, clock_given, clock_rests};

    /// A clock that answers `start` first, and then each time so many microseconds more, up to the greatest moment, at
    /// which it stands.
    pub fn new(start: Moment, step: u64) -> MemClock
        ensures start { clock_start result ≡ start }
        ensures step { clock_step result ≡ step }
        ensures fresh { (clock_calls result ≡ 0) × (clock_last result ≡ 0) }
        ensures given { clock_given result ≡ Some [] }
        ensures rests { clock_rests result ≡ 0 }
    {
        MemClock {
            start,
            step,
            calls: 0,
            last: Moment::epoch(),
            rests: 0,
        }
    }
}

impl Clock for MemClock {
    ghost use Rattle.front_ports.specs.MemoryClock.{clock_start, clock_step, clock_calls, clock_last, clock_given, clock_rests};

    ghost last = { clock_last };

    ghost given = { clock_given };

    ghost rests = { clock_rests };

    fn now(&mut self) -> Moment
        ensures later { clock_last self.old ≤ result }
        ensures last { clock_last self.new ≡ result }
        ensures given { Grows (clock_given self.old) (clock_given self.new) (result ∷ []) }
        ensures told { LosesAtEnd (clock_given self.old) (clock_given self.new) }
        ensures rests { clock_rests self.new ≡ clock_rests self.old }

        // Which moment it is.
        ensures answer { result ≡ moment_at (clock_start self.old) (clock_step self.old) (clock_calls self.old) }
        ensures setting { (clock_start self.new ≡ clock_start self.old) × (clock_step self.new ≡ clock_step self.old) }
        ensures counted { clock_calls self.new ≡ min (clock_calls self.old + 1) (2 ^ 64 - 1) }
    {
        let moment = step_on(self.start, self.step, self.calls);
        self.calls = self.calls.saturating_add(1);
        self.last = moment;
        moment
    }

    fn rest(&mut self) {
        self.rests = self.rests.saturating_add(1);
    }
}
