// How fast lines are shipped.
ghost use Rattle.std.specs.Prelude.{◌≡◌, ◌≤◌};
ghost use Rattle.log_ship.specs.Sides.{side_of};
ghost use Rattle.retry_throttle.specs.Clocks.{clock_tells};
ghost use Rattle.retry_throttle.specs.Senders.{sender_bucket, sender_clock, sender_rules};
ghost use Rattle.log_ship.specs.Paces as spec;

use batch_backend::Limits;
use front_ports::Clock;
use retry_throttle::{Bucket, Sender};
use truncate_backend::BatchSink;

/// In which batches lines are posted, how often, and how fast.
#[derive(Clone, Copy, Debug, PartialEq, Eq)]
pub struct ShipPace {
    /// How many lines a batch has at most, from 1 on.
    pub max_lines: u32,
    /// How many bytes of lines a batch has at most, but for a line that is longer.
    pub max_bytes: u64,
    /// How often a batch is posted at most, 1 to 10.
    pub tries: u32,
    /// How many posts a second there may be, 1 to 1000.
    pub rate: u32,
    /// How many posts there may be at once, 1 to 1000.
    pub burst: u32,
    /// How long a batch waits before its second post, in milliseconds, 1 to 30000: before each further one twice as long, at most 30000.
    pub wait_ms: u32,
    /// The number of the first line that is shipped, 1 to 2^48.
    pub from_line: u64,
}

/// The limits of a batch. No line waits for others that may come.
pub(crate) fn limits_of(pace: &ShipPace) -> Limits
    ensures { result ≡ spec.limits_of pace.now }
{
    Limits {
        lines: pace.max_lines,
        bytes: pace.max_bytes,
        wait: 0,
    }
}

/// A sender whose bucket is full at the first moment that the clock gives.
pub(crate) fn sender_of<B: BatchSink, K: Clock>(pace: &ShipPace, sink: B, clock: K) -> Sender<B, K>
    requires { spec.IsWithin pace.now }
    ensures begins { spec.Begins pace.now (spec.told_by (B.tells sink) (clock_tells K.given K.last K.rests clock))
        (side_of B.tells K.given K.last K.rests result) }
    ensures rules { sender_rules result ≡ spec.rules_of pace.now }
    ensures behind { (sender_bucket result).last ≤ K.last (sender_clock result) }
{
    let mut clock = clock;
    let now = clock.now();
    let bucket = Bucket::start(pace.rate, pace.burst, now);
    Sender::new(
        sink,
        clock,
        bucket,
        pace.tries,
        u64::from(pace.wait_ms) * 1000,
    )
}
