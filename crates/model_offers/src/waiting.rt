ghost use Rattle.std.specs.Prelude.{◌≡◌};
ghost use Rattle.model_worlds.specs.Steps as spec;

use model_worlds::{Items, Waiting};

/// Whether no offer waits.
pub fn no_wait(waiting: &Items<Waiting>) -> bool
    ensures { result ≡ spec.no_wait waiting.now }
{
    waiting.as_slice().is_empty()
}
