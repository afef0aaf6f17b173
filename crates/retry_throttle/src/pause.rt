// The wait before a batch is posted again.
ghost use Rattle.std.specs.Prelude.{◌≡◌, ◌<◌, ◌≤◌};
ghost use Rattle.retry_throttle.specs.Clocks.{clock_tells};
ghost use Rattle.retry_throttle.specs.Pauses as pauses;
ghost use Rattle.retry_throttle.specs.Sendings as spec;

use front_ports::Clock;

/// How often a clock rests at most in one wait, and in the askings before one post: a wait ends then whatever the clock says.
pub const MOST_RESTS: u32 = 1_000_000;

/// The longest wait before a batch is posted again, in microseconds.
pub const MOST_WAIT: u64 = 30_000_000;

/// The wait after another one, in microseconds: the first one where there was none, and else twice as long, up to `MOST_WAIT`.
pub(crate) fn next_wait(first: u64, wait: u64) -> u64
    ensures { result ≡ pauses.next_wait first wait }
{
    if wait == 0 {
        first
    } else {
        wait.saturating_mul(2).min(MOST_WAIT)
    }
}

// Rests until the clock gives a moment that is so many microseconds after its first one, or `MOST_RESTS` times.
fn pause_for<K: Clock>(clock: &mut K, wait: u64)
    requires some { 0 < wait }
    ensures paused { spec.Paused wait (clock_tells K.given K.last K.rests clock.old) (clock_tells K.given K.last K.rests clock.new) }
{
    let first = clock.now();
    let mut rests = 0;
    'resting: loop {
        clock.rest();
        let passed = clock.now().micros().saturating_sub(first.micros());
        if wait <= passed {
            return;
        }
        rests += 1;
        if rests == MOST_RESTS {
            return;
        }
    }
}

/// Rests for so many microseconds, and not at all for none.
pub(crate) fn pause<K: Clock>(clock: &mut K, wait: u64)
    ensures paused { spec.Paused wait (clock_tells K.given K.last K.rests clock.old) (clock_tells K.given K.last K.rests clock.new) }
{
    if 0 < wait {
        pause_for(clock, wait);
    }
}
