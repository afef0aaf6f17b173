ghost use Rattle.probe_rounds.specs.declared.stop.ProbeStop.TheVariants as stops;
ghost use Rattle.std.specs.Prelude.{◌≡◌};

use front_base::NoMemory as OutOfMemory;
use std::alloc::AllocError;

/// Why rounds of probes were not all made.
#[derive(Clone, Copy, Debug, PartialEq, Eq)]
pub enum ProbeStop {
    /// A line could not be written.
    WriteFault,
    NoMemory,
}

impl From<AllocError> for ProbeStop {
    ghost from_gives = { λ _ e. e ≡ stops.NoMemory };

    fn from(_: AllocError) -> Self {
        ProbeStop::NoMemory
    }
}

impl From<OutOfMemory> for ProbeStop {
    ghost from_gives = { λ _ e. e ≡ stops.NoMemory };

    fn from(_: OutOfMemory) -> Self {
        ProbeStop::NoMemory
    }
}
