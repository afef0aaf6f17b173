// Metrics with a value for each sink.
ghost use Rattle.std.specs.Prelude.{◌≡◌, IfOk, string_bytes};
ghost use Rattle.metrics_text.specs.Exposition.{metric_text};
ghost use Rattle.metrics_text.specs.Metrics as spec;

use std::alloc::{AllocError, Global};

#[tactic(auto, unfolding(crate::specs::Exposition::samples_text))]
pub(crate) fn offered_text(alloc: Global, log: u64, webhook: u64) -> Result<String, AllocError>
    ensures { IfOk result (λ text. string_bytes text ≡ metric_text (spec.offered log webhook)) }
{
    format!(in alloc;
        "# HELP apiaggd_audit_lines_offered_total Lines that a sink was offered, of requests that ended.\n# TYPE apiaggd_audit_lines_offered_total counter\napiaggd_audit_lines_offered_total{{sink=\"log\"}} {log}\napiaggd_audit_lines_offered_total{{sink=\"webhook\"}} {webhook}\n"
    )
}

#[tactic(auto, unfolding(crate::specs::Exposition::samples_text))]
pub(crate) fn written_text(alloc: Global, log: u64, webhook: u64) -> Result<String, AllocError>
    ensures { IfOk result (λ text. string_bytes text ≡ metric_text (spec.written log webhook)) }
{
    format!(in alloc;
        "# HELP apiaggd_audit_lines_written_total Lines that were written or posted.\n# TYPE apiaggd_audit_lines_written_total counter\napiaggd_audit_lines_written_total{{sink=\"log\"}} {log}\napiaggd_audit_lines_written_total{{sink=\"webhook\"}} {webhook}\n"
    )
}

#[tactic(auto, unfolding(crate::specs::Exposition::samples_text))]
pub(crate) fn failed_text(alloc: Global, log: u64, webhook: u64) -> Result<String, AllocError>
    ensures { IfOk result (λ text. string_bytes text ≡ metric_text (spec.failed log webhook)) }
{
    format!(in alloc;
        "# HELP apiaggd_audit_lines_failed_total Lines that a blocking sink could not write.\n# TYPE apiaggd_audit_lines_failed_total counter\napiaggd_audit_lines_failed_total{{sink=\"log\"}} {log}\napiaggd_audit_lines_failed_total{{sink=\"webhook\"}} {webhook}\n"
    )
}

#[tactic(auto, unfolding(crate::specs::Exposition::samples_text))]
pub(crate) fn lost_text(alloc: Global, log: u64, webhook: u64) -> Result<String, AllocError>
    ensures { IfOk result (λ text. string_bytes text ≡ metric_text (spec.lost log webhook)) }
{
    format!(in alloc;
        "# HELP apiaggd_audit_lines_lost_total Lines of batches that could not be written.\n# TYPE apiaggd_audit_lines_lost_total counter\napiaggd_audit_lines_lost_total{{sink=\"log\"}} {log}\napiaggd_audit_lines_lost_total{{sink=\"webhook\"}} {webhook}\n"
    )
}

#[tactic(auto, unfolding(crate::specs::Exposition::samples_text))]
pub(crate) fn not_taken_text(alloc: Global, log: u64, webhook: u64) -> Result<String, AllocError>
    ensures { IfOk result (λ text. string_bytes text ≡ metric_text (spec.not_taken log webhook)) }
{
    format!(in alloc;
        "# HELP apiaggd_audit_lines_not_taken_total Lines that found the buffer full.\n# TYPE apiaggd_audit_lines_not_taken_total counter\napiaggd_audit_lines_not_taken_total{{sink=\"log\"}} {log}\napiaggd_audit_lines_not_taken_total{{sink=\"webhook\"}} {webhook}\n"
    )
}

#[tactic(auto, unfolding(crate::specs::Exposition::samples_text))]
pub(crate) fn too_large_text(alloc: Global, log: u64, webhook: u64) -> Result<String, AllocError>
    ensures { IfOk result (λ text. string_bytes text ≡ metric_text (spec.too_large log webhook)) }
{
    format!(in alloc;
        "# HELP apiaggd_audit_events_too_large_total Events that were left out since even the line without objects was too large.\n# TYPE apiaggd_audit_events_too_large_total counter\napiaggd_audit_events_too_large_total{{sink=\"log\"}} {log}\napiaggd_audit_events_too_large_total{{sink=\"webhook\"}} {webhook}\n"
    )
}

#[tactic(auto, unfolding(crate::specs::Exposition::samples_text))]
pub(crate) fn last_written_text(alloc: Global, log: u64, webhook: u64) -> Result<String, AllocError>
    ensures { IfOk result (λ text. string_bytes text ≡ metric_text (spec.last_written log webhook)) }
{
    format!(in alloc;
        "# HELP apiaggd_audit_last_written_timestamp_seconds When the last line was written, 0 before the first.\n# TYPE apiaggd_audit_last_written_timestamp_seconds gauge\napiaggd_audit_last_written_timestamp_seconds{{sink=\"log\"}} {log}\napiaggd_audit_last_written_timestamp_seconds{{sink=\"webhook\"}} {webhook}\n"
    )
}
