ghost use Rattle.std.specs.Prelude.{◌≡◌};
ghost use Rattle.command_options.specs.declared.fault.WordsFault.TheVariants as words_fault;
ghost use Rattle.probe_command.specs.declared.fault.ProbeFault.TheVariants as probe_fault;

use command_options::WordsFault;
use front_base::{NoMemory, Text};

/// Why words are no `probe` that can be run.
#[derive(Debug, Drop)]
pub enum ProbeFault {
    /// They are no command line, a number is out of its range, or memory ran out.
    Words(WordsFault),
    /// The text of `--front` is no address.
    Front(Text),
    /// The text of `--token` has a byte that is none of `!` to `~`.
    Token,
}

impl From<WordsFault> for ProbeFault {
    ghost from_gives = { λ fault e. e ≡ probe_fault.Words fault };

    fn from(fault: WordsFault) -> Self {
        ProbeFault::Words(fault)
    }
}

impl From<NoMemory> for ProbeFault {
    ghost from_gives = { λ _ e. e ≡ probe_fault.Words words_fault.NoMemory };

    fn from(_: NoMemory) -> Self {
        ProbeFault::Words(WordsFault::NoMemory)
    }
}
