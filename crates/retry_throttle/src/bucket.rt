ghost use Rattle.std.specs.Prelude.{◌≡◌, ◌≤◌};
ghost use Rattle.retry_throttle.specs.Buckets as spec;

use front_base::Moment;
use std::marker::Model;

/// A token, in the unit in which a bucket counts: a millionth of it.
pub const TOKEN: u64 = 1_000_000;

/// A bucket of tokens. It gains some every second, up to the most that it may hold, and gives one where it holds a whole one.
#[derive(Debug, Drop)]
pub struct Bucket {
    // How many tokens it gains a second, and how many it holds at most.
    rate: u32,
    burst: u32,
    // What it held at the last moment, in millionths of a token.
    level: u64,
    last: Moment,
}

impl Model for Bucket {
    ghost use Rattle.retry_throttle.specs.Buckets as seen;

    ghost Value = { seen.Level };

    ghost view = { λ b. record { rate = b.rate; burst = b.burst; level = b.level; last = b.last } };

    ghost invariant = { λ b. seen.IsWithin (record { rate = b.rate; burst = b.burst; level = b.level; last = b.last }) };
}

impl Bucket {
    /// A bucket that is full at this moment. `rate` is in tokens a second, 1 to 1000, and `burst` is the most tokens that it holds, 1 to 1000.
    pub fn start(rate: u32, burst: u32, now: Moment) -> Bucket
        requires rate { (1 ≤ rate) × (rate ≤ 1000) }
        requires burst { (1 ≤ burst) × (burst ≤ 1000) }
        ensures { result ≡ spec.full rate burst now }
    {
        Bucket {
            rate,
            burst,
            level: u64::from(burst) * TOKEN,
            last: now,
        }
    }

    // What it holds at this moment.
    fn level_at(&self, now: Moment) -> u64
        requires { self.now.last ≤ now }
        ensures { result ≡ spec.level_at self.now now }
    {
        let passed = now.micros() - self.last.micros();
        let gained = passed.saturating_mul(u64::from(self.rate));
        let most = u64::from(self.burst) * TOKEN;
        self.level.saturating_add(gained).min(most)
    }

    /// Takes a token, if there is a whole one at this moment, which isn't before the last one.
    pub fn take(&mut self, now: Moment) -> bool
        requires { self.old.last ≤ now }
        ensures gives { result ≡ spec.gives self.old now }
        ensures asked { self.new ≡ spec.asked self.old now }
    {
        let level = self.level_at(now);
        self.last = now;
        if level < TOKEN {
            self.level = level;
            return false;
        }
        self.level = level - TOKEN;
        true
    }
}
