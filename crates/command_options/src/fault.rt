ghost use Rattle.std.specs.Prelude.{◌≡◌};
ghost use Rattle.command_options.specs.declared.fault.WordsFault.TheVariants as words_fault;

use crate::ranged::Ranged;
use front_base::NoMemory as OutOfMemory;

/// Why words are no command that can be run.
#[derive(Debug, Drop)]
pub enum WordsFault {
    /// They are no command line.
    Usage,
    /// The number of an option is out of its range.
    Limits { option: Ranged, number: u64 },
    /// Memory ran out.
    NoMemory,
}

impl From<OutOfMemory> for WordsFault {
    ghost from_gives = { λ _ e. e ≡ words_fault.NoMemory };

    fn from(_: OutOfMemory) -> Self {
        WordsFault::NoMemory
    }
}
