ghost use Rattle.std.specs.Prelude.{◌≡◌};
ghost use Rattle.batch_backend.specs.Pumps as spec;

/// What a pump did.
#[derive(Clone, Copy, Debug, PartialEq, Eq)]
pub enum Pumped {
    /// It took a line, which waits.
    Took,
    /// It put a batch of so many lines, which were written.
    Wrote(u32),
    /// It put a batch of so many lines, which were not written and are not put again.
    Lost(u32),
    /// There was no line to take, and some wait.
    Waiting,
    /// There was no line to take, and none waits.
    Idle,
}

impl Pumped {
    /// How many lines were written.
    pub fn wrote(self) -> u64
        ensures { result ≡ spec.wrote self }
    {
        match self {
            Pumped::Wrote(count) => u64::from(count),
            _ => 0,
        }
    }

    /// How many lines were lost.
    pub fn lost(self) -> u64
        ensures { result ≡ spec.lost self }
    {
        match self {
            Pumped::Lost(count) => u64::from(count),
            _ => 0,
        }
    }

    /// Whether there was no line to take.
    pub fn rests(self) -> bool
        ensures { result ≡ spec.is_rest self }
    {
        matches!(self, Pumped::Waiting | Pumped::Idle)
    }
}
