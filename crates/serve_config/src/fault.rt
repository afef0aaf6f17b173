ghost use Rattle.std.specs.Prelude.{◌≡◌};
ghost use Rattle.command_options.specs.declared.fault.WordsFault.TheVariants as words_fault;
ghost use Rattle.serve_config.specs.declared.fault.ServeFault.TheVariants as serve_fault;

use command_options::WordsFault;
use front_base::{NoMemory, Text};

/// Why words are no `serve` that can be run.
#[derive(Debug, Drop)]
pub enum ServeFault {
    /// They are no command line, a number is out of its range, or memory ran out.
    Words(WordsFault),
    /// The text of `--listen` is no address.
    Listen(Text),
    /// The text of `--audit-webhook-url` is no URL that a webhook can have.
    Webhook(Text),
    /// The URL of `--audit-webhook-url` leads to the address of `--listen`: each post would be a request of its own.
    OwnWebhook(Text),
}

impl From<WordsFault> for ServeFault {
    ghost from_gives = { λ fault e. e ≡ serve_fault.Words fault };

    fn from(fault: WordsFault) -> Self {
        ServeFault::Words(fault)
    }
}

impl From<NoMemory> for ServeFault {
    ghost from_gives = { λ _ e. e ≡ serve_fault.Words words_fault.NoMemory };

    fn from(_: NoMemory) -> Self {
        ServeFault::Words(WordsFault::NoMemory)
    }
}
