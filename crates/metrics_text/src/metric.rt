// One metric as text.
ghost use Rattle.std.specs.Prelude.{◌≡◌, IfOk, string_bytes};
ghost use Rattle.metrics_text.specs.Exposition.{metric_text};
ghost use Rattle.metrics_text.specs.Metrics as spec;

use std::alloc::{AllocError, Global};

/// A metric that only rises, of one value.
#[tactic(auto, unfolding(crate::specs::Exposition::samples_text))]
pub(crate) fn counter_text(
    alloc: Global,
    name: &str,
    help: &str,
    value: u64,
) -> Result<String, AllocError>
    ensures { IfOk result (λ text. string_bytes text ≡ metric_text (spec.counter name.now help.now (spec.plain value))) }
{
    format!(in alloc; "# HELP {name} {help}\n# TYPE {name} counter\n{name} {value}\n")
}

/// One that falls too.
#[tactic(auto, unfolding(crate::specs::Exposition::samples_text))]
pub(crate) fn gauge_text(
    alloc: Global,
    name: &str,
    help: &str,
    value: u64,
) -> Result<String, AllocError>
    ensures { IfOk result (λ text. string_bytes text ≡ metric_text (spec.gauge name.now help.now (spec.plain value))) }
{
    format!(in alloc; "# HELP {name} {help}\n# TYPE {name} gauge\n{name} {value}\n")
}
