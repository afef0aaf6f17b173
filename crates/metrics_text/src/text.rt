// All metrics as text.
ghost use Rattle.std.specs.Prelude.{◌≡◌, ◌++◌, IfOk, string_bytes};
ghost use Rattle.metrics_text.specs.Exposition as exposition;
ghost use Rattle.metrics_text.specs.Metrics as spec;

use crate::counts::{Answers, Connections, RunCounts, SinkLines};
use crate::metric::{counter_text, gauge_text};
use crate::sinks::{
    failed_text, last_written_text, lost_text, not_taken_text, offered_text, too_large_text,
    written_text,
};
use std::alloc::{AllocError, Global};

// Texts one after another.
fn three(alloc: Global, a: &str, b: &str, c: &str) -> Result<String, AllocError>
    ensures { IfOk result (λ text. string_bytes text ≡ a.now ++ (b.now ++ c.now)) }
{
    format!(in alloc; "{a}{b}{c}")
}

fn four(alloc: Global, a: &str, b: &str, c: &str, d: &str) -> Result<String, AllocError>
    ensures { IfOk result (λ text. string_bytes text ≡ a.now ++ (b.now ++ (c.now ++ d.now))) }
{
    format!(in alloc; "{a}{b}{c}{d}")
}

fn five(alloc: Global, a: &str, b: &str, c: &str, d: &str, e: &str) -> Result<String, AllocError>
    ensures { IfOk result (λ text. string_bytes text ≡ a.now ++ (b.now ++ (c.now ++ (d.now ++ e.now)))) }
{
    format!(in alloc; "{a}{b}{c}{d}{e}")
}

#[tactic(auto, unfolding(crate::specs::Exposition::samples_text))]
fn requests_text(alloc: Global, answers: Answers) -> Result<String, AllocError>
    ensures { IfOk result (λ text. string_bytes text ≡ exposition.metric_text (spec.requests answers)) }
{
    let Answers {
        informational,
        successful,
        redirected,
        client_errors,
        server_errors,
    } = answers;
    format!(in alloc;
        "# HELP apiserver_request_total Requests that were answered, by the class of their code.\n# TYPE apiserver_request_total counter\napiserver_request_total{{code=\"1xx\"}} {informational}\napiserver_request_total{{code=\"2xx\"}} {successful}\napiserver_request_total{{code=\"3xx\"}} {redirected}\napiserver_request_total{{code=\"4xx\"}} {client_errors}\napiserver_request_total{{code=\"5xx\"}} {server_errors}\n"
    )
}

// How many events a sink has no line of.
fn errors_of(lines: SinkLines) -> u128
    ensures { result ≡ spec.errors_of lines }
{
    u128::from(lines.failed)
        + u128::from(lines.lost)
        + u128::from(lines.not_taken)
        + u128::from(lines.too_large)
}

#[tactic(auto, unfolding(crate::specs::Exposition::samples_text))]
fn errors_text(alloc: Global, log: SinkLines, webhook: SinkLines) -> Result<String, AllocError>
    ensures { IfOk result (λ text. string_bytes text ≡ exposition.metric_text (spec.errors log webhook)) }
{
    let (log, webhook) = (errors_of(log), errors_of(webhook));
    format!(in alloc;
        "# HELP apiserver_audit_error_total Audit events that a sink has no line of, for whatever reason.\n# TYPE apiserver_audit_error_total counter\napiserver_audit_error_total{{plugin=\"log\"}} {log}\napiserver_audit_error_total{{plugin=\"webhook\"}} {webhook}\n"
    )
}

fn events_text(alloc: Global, run: RunCounts) -> Result<String, AllocError>
    ensures { IfOk result (λ text. string_bytes text ≡ exposition.metrics_text (spec.requests_and_events run)) }
{
    let requests = requests_text(alloc, run.answers)?;
    let events = counter_text(
        alloc,
        "apiserver_audit_event_total",
        "Audit events of requests that were answered.",
        run.events,
    )?;
    let errors = errors_text(alloc, run.log, run.webhook)?;
    three(alloc, requests.as_str(), events.as_str(), errors.as_str())
}

#[tactic(auto, unfolding(crate::specs::Exposition::samples_text))]
fn ends_text(alloc: Global, counts: Connections) -> Result<String, AllocError>
    ensures { IfOk result (λ text. string_bytes text ≡ exposition.metric_text (spec.ends counts)) }
{
    let Connections {
        well,
        idle,
        late,
        slow,
        gone,
        ..
    } = counts;
    format!(in alloc;
        "# HELP apiaggd_connections_ended_total Connections that ended, by how.\n# TYPE apiaggd_connections_ended_total counter\napiaggd_connections_ended_total{{end=\"well\"}} {well}\napiaggd_connections_ended_total{{end=\"idle\"}} {idle}\napiaggd_connections_ended_total{{end=\"late\"}} {late}\napiaggd_connections_ended_total{{end=\"slow\"}} {slow}\napiaggd_connections_ended_total{{end=\"gone\"}} {gone}\n"
    )
}

fn connections_text(alloc: Global, counts: Connections) -> Result<String, AllocError>
    ensures { IfOk result (λ text. string_bytes text ≡ exposition.metrics_text (spec.connections counts)) }
{
    let accepted = counter_text(
        alloc,
        "apiaggd_connections_accepted_total",
        "Connections that a bay was given.",
        counts.accepted,
    )?;
    let ends = ends_text(alloc, counts)?;
    let bays = gauge_text(
        alloc,
        "apiaggd_bays",
        "Connections that can be served at once.",
        counts.bays,
    )?;
    let open = gauge_text(
        alloc,
        "apiaggd_bays_in_use",
        "Connections that are open.",
        counts.open,
    )?;
    four(
        alloc,
        accepted.as_str(),
        ends.as_str(),
        bays.as_str(),
        open.as_str(),
    )
}

fn calls_text(alloc: Global, counts: Connections) -> Result<String, AllocError>
    ensures { IfOk result (λ text. string_bytes text ≡ exposition.metrics_text (spec.calls counts)) }
{
    let dials = counter_text(
        alloc,
        "apiaggd_dials_total",
        "Connections to backends and webhooks that were begun.",
        counts.dials,
    )?;
    let failed = counter_text(
        alloc,
        "apiaggd_dials_failed_total",
        "Connections to backends and webhooks that could not be made.",
        counts.dials_failed,
    )?;
    let no_files = counter_text(
        alloc,
        "apiaggd_too_many_open_files_total",
        "Connections that failed since the process had too many open files.",
        counts.no_files,
    )?;
    three(alloc, dials.as_str(), failed.as_str(), no_files.as_str())
}

fn offers_text(alloc: Global, log: SinkLines, webhook: SinkLines) -> Result<String, AllocError>
    ensures { IfOk result (λ text. string_bytes text ≡ exposition.metrics_text (spec.offers log webhook)) }
{
    let offered = offered_text(alloc, log.offered, webhook.offered)?;
    let written = written_text(alloc, log.written, webhook.written)?;
    let failed = failed_text(alloc, log.failed, webhook.failed)?;
    three(alloc, offered.as_str(), written.as_str(), failed.as_str())
}

fn losses_text(alloc: Global, log: SinkLines, webhook: SinkLines) -> Result<String, AllocError>
    ensures { IfOk result (λ text. string_bytes text ≡ exposition.metrics_text (spec.losses log webhook)) }
{
    let lost = lost_text(alloc, log.lost, webhook.lost)?;
    let not_taken = not_taken_text(alloc, log.not_taken, webhook.not_taken)?;
    let large = too_large_text(alloc, log.too_large, webhook.too_large)?;
    let last = last_written_text(alloc, log.last_written, webhook.last_written)?;
    four(
        alloc,
        lost.as_str(),
        not_taken.as_str(),
        large.as_str(),
        last.as_str(),
    )
}

/// The metrics of a run, as node_exporter's textfile collector reads them.
pub fn metrics_text(alloc: Global, run: RunCounts) -> Result<String, AllocError>
    ensures { IfOk result (λ text. string_bytes text ≡ exposition.groups_text (spec.metrics run)) }
{
    let events = events_text(alloc, run)?;
    let connections = connections_text(alloc, run.connections)?;
    let calls = calls_text(alloc, run.connections)?;
    let offers = offers_text(alloc, run.log, run.webhook)?;
    let losses = losses_text(alloc, run.log, run.webhook)?;
    five(
        alloc,
        events.as_str(),
        connections.as_str(),
        calls.as_str(),
        offers.as_str(),
        losses.as_str(),
    )
}
