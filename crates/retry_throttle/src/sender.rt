ghost use Rattle.std.specs.Prelude.{◌≡◌, ◌<◌, ◌≤◌, ◌^◌, length};
ghost use Rattle.retry_throttle.specs.Buckets.{Level};
ghost use Rattle.retry_throttle.specs.Clocks.{clock_tells};
ghost use Rattle.retry_throttle.specs.Sendings as spec;
ghost use Rattle.retry_throttle.specs.declared.pause.TheConstants.{MOST_WAIT};

use crate::bucket::Bucket;
use crate::pause::{MOST_RESTS, next_wait, pause};
use crate::sent::Sent;
use front_base::Line;
use front_ports::Clock;
use truncate_backend::BatchSink;

/// Posts batches to a sink, each as often as it takes, with a wait before each post but the first, and a token of a bucket for each.
#[derive(Drop)]
pub struct Sender<B, K> {
    sink: B,
    clock: K,
    bucket: Bucket,
    // How often a batch is posted at most, and its first wait, in microseconds.
    tries: u32,
    wait: u64,
    ghost some: { (0 < tries) × (0 < wait) },
}

// Asks the bucket for a token until it gives one, at most `MOST_RESTS` times. The clock rests after each asking that gave none.
fn wait_for_token<K: Clock>(bucket: &mut Bucket, clock: &mut K) -> bool
    requires behind { bucket.old.last ≤ K.last clock.old }
    ensures asked { spec.Asked bucket.old (clock_tells K.given K.last K.rests clock.old) result bucket.new
        (clock_tells K.given K.last K.rests clock.new) }
    ensures behind { bucket.new.last ≤ K.last clock.new }
{
    let mut refused = 0;
    'asking: loop {
        if bucket.take(clock.now()) {
            return true;
        }
        clock.rest();
        refused += 1;
        if refused == MOST_RESTS {
            return false;
        }
    }
}

// Waits so many microseconds, and then for a token.
fn wait_for_turn<K: Clock>(bucket: &mut Bucket, clock: &mut K, wait: u64) -> bool
    requires behind { bucket.old.last ≤ K.last clock.old }
    ensures waited { spec.Waited wait bucket.old (clock_tells K.given K.last K.rests clock.old) result bucket.new
        (clock_tells K.given K.last K.rests clock.new) }
    ensures behind { bucket.new.last ≤ K.last clock.new }
{
    pause(clock, wait);
    wait_for_token(bucket, clock)
}

impl<B: BatchSink, K: Clock> Sender<B, K> {
    ghost use Rattle.retry_throttle.specs.Senders.{sender_sink, sender_clock, sender_bucket, sender_rules};

    /// Nothing was posted. `tries` is the most posts of a batch, 1 to 10, and `wait` how long it waits before its second post, in microseconds, 1
    /// to `MOST_WAIT`: before each further one twice as long as before the last, up to `MOST_WAIT`.
    pub fn new(sink: B, clock: K, bucket: Bucket, tries: u32, wait: u64) -> Sender<B, K>
        requires tries { (1 ≤ tries) × (tries ≤ 10) }
        requires wait { (1 ≤ wait) × (wait ≤ MOST_WAIT) }
        requires behind { bucket.last ≤ K.last clock }
        ensures parts { (sender_sink result ≡ sink) × (sender_clock result ≡ clock) × (sender_bucket result ≡ bucket) }
        ensures rules { sender_rules result ≡ record { tries = tries; wait = wait } }
    {
        Sender {
            sink,
            clock,
            bucket,
            tries,
            wait,
        }
    }

    /// Posts these lines one time after another, up to the first post that is done, at most `tries` times. Before each post but the first the clock
    /// rests until the wait has passed by its moments, or `MOST_RESTS` times. Then the bucket is asked for a token with the clock's moment until it
    /// gives one, at most `MOST_RESTS` times, and after each asking that gave none the clock rests.
    pub fn send(&mut self, lines: &[Line]) -> Sent
        requires some { (0 < length lines.now) × (length lines.now < 2 ^ 32) }
        requires behind { (sender_bucket self.old).last ≤ K.last (sender_clock self.old) }
        ensures sends { spec.Sends (sender_rules self.old) lines.now (sender_bucket self.old) (B.tells (sender_sink self.old))
            (clock_tells K.given K.last K.rests (sender_clock self.old)) result
            (sender_bucket self.new) (B.tells (sender_sink self.new)) (clock_tells K.given K.last K.rests (sender_clock self.new)) }
        ensures behind { (sender_bucket self.new).last ≤ K.last (sender_clock self.new) }
        ensures rules { sender_rules self.new ≡ sender_rules self.old }
    {
        let tries = self.tries;
        let first = self.wait;
        let mut posts = 0;
        let mut wait = 0;
        'posting: loop {
            if !wait_for_turn(&mut self.bucket, &mut self.clock, wait) {
                return Sent::Throttled { posts };
            }
            posts += 1;
            match self.sink.put(lines) {
                Ok(()) => return Sent::Done { posts },
                Err(last) => {
                    if posts == tries {
                        return Sent::GaveUp { posts, last };
                    }
                }
            }
            wait = next_wait(first, wait);
        }
    }

    /// The sink and the clock, which it gives back.
    pub fn end(self) -> (B, K)
        ensures { result ≡ (sender_sink self, sender_clock self) }
    {
        let Sender {
            sink,
            clock,
            bucket: _,
            tries: _,
            wait: _,
        } = self;
        (sink, clock)
    }
}
