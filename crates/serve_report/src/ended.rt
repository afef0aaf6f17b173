// What a run of `serve` came to.
use crate::ends::ends_text;
use audit_core::SinkMode;
use queue_drain::DrainEnd;
use serve_config::ServeWords;
use serve_roles::BayEnd;
use serve_runs::Ended;
use std::alloc::{AllocError, Global};
use tcp_plant::SinkCounts;

// What became of the lines of one sink.
#[derive(Clone, Copy)]
struct LineCounts {
    offered: u64,
    written: u64,
    failed: u64,
    lost: u64,
    large: u64,
    full: u64,
}

fn line_counts<S, K>(
    offered: u64,
    counts: SinkCounts,
    drain: Option<&DrainEnd<S, K>>,
) -> LineCounts {
    let own = LineCounts {
        offered,
        written: counts.written,
        failed: counts.failed,
        lost: 0,
        large: counts.large,
        full: 0,
    };
    match drain {
        Some(end) => LineCounts {
            written: end.written,
            failed: 0,
            lost: end.lost,
            full: end.fulls,
            ..own
        },
        None => own,
    }
}

fn push_counts(
    alloc: Global,
    name: &str,
    counts: LineCounts,
    text: &mut String,
) -> Result<(), AllocError> {
    let LineCounts {
        offered,
        written,
        failed,
        lost,
        large,
        full,
    } = counts;
    let line = format!(in alloc;
        "apiaggd: {name}: {offered} lines offered, {written} written, {failed} failed, {lost} lost, {full} not taken; {large} too large\n"
    )?;
    text.push_str(line.as_str())
}

// How many requests all bays numbered, and how many lines they offered to the log and to the webhook.
fn sums_of<R, L, K, Y, D>(bays: &[BayEnd<R, L, K, Y, D>]) -> (u64, u64, u64) {
    let (mut requests, mut log, mut hook) = (0u64, 0u64, 0u64);
    for bay in bays {
        requests = requests.saturating_add(bay.number);
        log = log.saturating_add(bay.log_lines);
        hook = hook.saturating_add(bay.hook_lines);
    }
    (requests, log, hook)
}

fn head_text(alloc: Global, requests: u64, ends: &str) -> Result<String, AllocError> {
    if ends.is_empty() {
        return format!(in alloc; "apiaggd: {requests} requests\n");
    }
    format!(in alloc; "apiaggd: {requests} requests; connections by their end:\n{ends}")
}

/// What was served, how connections ended, and what became of the lines of each sink. Offered lines were written, failed, are lost or
/// weren't taken; events that were too large had no line. Of a blocking sink a line that wasn't written failed; of one in mode batch
/// it is lost where its batch failed, and wasn't taken where the buffer was full.
pub fn ended_text<R, L, W, H, K, Y, D>(
    alloc: Global,
    words: &ServeWords,
    ended: &Ended<R, L, W, H, K, Y, D>,
    log: SinkCounts,
    hook: SinkCounts,
) -> Result<String, AllocError> {
    let bays = ended.bays.as_slice();
    let (requests, log_lines, hook_lines) = sums_of(bays);
    let ends = ends_text(alloc, bays)?;
    let mut text = head_text(alloc, requests, ends.as_str())?;
    if words.log.mode != SinkMode::Off {
        let counts = line_counts(log_lines, log, ended.log.drain.as_ref());
        push_counts(alloc, "log", counts, &mut text)?;
    }
    if words.webhook.mode != SinkMode::Off {
        let counts = line_counts(hook_lines, hook, ended.hook.drain.as_ref());
        push_counts(alloc, "webhook", counts, &mut text)?;
    }
    Ok(text)
}

/// That fewer threads run than it takes, without a line feed.
pub fn short_text(alloc: Global, running: u64, all: u64) -> Result<String, AllocError> {
    format!(in alloc; "threads: {running} of {all} bays and drainers could be started")
}
