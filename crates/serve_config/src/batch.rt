// How lines wait for a sink in batch mode.
ghost use Rattle.std.specs.Prelude.{◌≤◌, IfOk};
ghost use Rattle.serve_config.specs.Serve as spec;

use crate::fault::ServeFault;
use crate::numbers::{ranged, ranged_u32};
use command_options::{Options, Ranged};

/// The buffer and the batches of a sink in batch mode. They are the same for both sinks.
#[derive(Clone, Copy, Debug, PartialEq, Eq, Drop)]
pub struct BatchWords {
    /// How many lines wait at most (`--batch-buffer`).
    pub buffer: u32,
    /// How many lines a batch has at most (`--batch-max-size`).
    pub max_lines: u32,
    /// How long the first line of a batch waits for others, in milliseconds (`--batch-max-wait-ms`).
    pub max_wait_ms: u64,
    /// How many bytes of lines a batch has at most, but for a line that is longer (`--max-batch-size`).
    pub max_bytes: u64,
}

#[tactic(auto, unfolding(crate::specs::Serve::batch_by))]
pub fn batch_by(options: &Options) -> Result<BatchWords, ServeFault>
    ensures gives { spec.Gives (λ v. v) result (spec.batch_by options.now) }
    ensures fit { IfOk result (λ batch. (1 ≤ batch.buffer) × (1 ≤ batch.max_lines)) }
{
    let buffer = ranged_u32(Ranged::BatchBuffer, options)?;
    let max_lines = ranged_u32(Ranged::BatchMaxSize, options)?;
    let max_wait_ms = ranged(Ranged::BatchMaxWait, options)?;
    let max_bytes = ranged(Ranged::MaxBatchSize, options)?;
    Ok(BatchWords {
        buffer,
        max_lines,
        max_wait_ms,
        max_bytes,
    })
}
