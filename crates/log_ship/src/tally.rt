ghost use Rattle.std.specs.Prelude.{◌≡◌};

use retry_throttle::Sent;

/// How many lines are posted and how many lost, and how many posts there were. A count stands at the greatest number of its type.
#[derive(Clone, Copy, Debug, PartialEq, Eq)]
pub struct Tally {
    pub posted: u64,
    pub lost: u64,
    pub posts: u64,
}

impl Tally {
    /// No batch is counted yet.
    pub fn none() -> Tally
        ensures { result ≡ record { posted = 0; lost = 0; posts = 0 } }
    {
        Tally {
            posted: 0,
            lost: 0,
            posts: 0,
        }
    }
}
