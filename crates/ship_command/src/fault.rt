ghost use Rattle.std.specs.Prelude.{◌≡◌};
ghost use Rattle.command_options.specs.declared.fault.WordsFault.TheVariants as words_fault;
ghost use Rattle.ship_command.specs.declared.fault.ShipFault.TheVariants as ship_fault;

use command_options::WordsFault;
use front_base::{NoMemory, Text};

/// Why words are no `ship` that can be run.
#[derive(Debug, Drop)]
pub enum ShipFault {
    /// They are no command line, a number is out of its range, or memory ran out.
    Words(WordsFault),
    /// The text of `--audit-webhook-url` is no URL that a webhook can have.
    Webhook(Text),
}

impl From<WordsFault> for ShipFault {
    ghost from_gives = { λ fault e. e ≡ ship_fault.Words fault };

    fn from(fault: WordsFault) -> Self {
        ShipFault::Words(fault)
    }
}

impl From<NoMemory> for ShipFault {
    ghost from_gives = { λ _ e. e ≡ ship_fault.Words words_fault.NoMemory };

    fn from(_: NoMemory) -> Self {
        ShipFault::Words(WordsFault::NoMemory)
    }
}
