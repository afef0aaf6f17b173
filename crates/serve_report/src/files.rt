// How many files a run has open.
use audit_core::SinkMode;
use serve_config::ServeWords;
use std::alloc::{AllocError, Global};

// The standard streams, and the listening socket twice.
const STREAMS_AND_LISTENER: u64 = 5;

// A log that is opened anew, while the old file is open and the end of the new one is read.
const LOG_FILES: u64 = 3;

// A bay's client and its link to a backend; where it posts events itself, its link to the webhook too.
fn files_of_bay(webhook: SinkMode) -> u64 {
    match webhook {
        SinkMode::Off | SinkMode::Batch => 2,
        SinkMode::Blocking | SinkMode::Strict => 3,
    }
}

fn files_of_log(log: SinkMode) -> u64 {
    match log {
        SinkMode::Off => 0,
        SinkMode::Batch | SinkMode::Blocking | SinkMode::Strict => LOG_FILES,
    }
}

fn files_of_drainer(webhook: SinkMode) -> u64 {
    match webhook {
        SinkMode::Batch => 1,
        SinkMode::Off | SinkMode::Blocking | SinkMode::Strict => 0,
    }
}

/// How many files and sockets a run by these words has open at most.
pub fn most_open_files(words: &ServeWords) -> u64 {
    let metrics = u64::from(words.metrics_path.is_some());
    files_of_bay(words.webhook.mode)
        .saturating_mul(u64::from(words.bays))
        .saturating_add(files_of_log(words.log.mode))
        .saturating_add(files_of_drainer(words.webhook.mode))
        .saturating_add(metrics)
        .saturating_add(STREAMS_AND_LISTENER)
}

/// A line where a run needs more files than it may open, which are so many. Else nothing.
pub fn files_warning(
    alloc: Global,
    words: &ServeWords,
    limit: Option<u64>,
) -> Result<String, AllocError> {
    let needed = most_open_files(words);
    let bays = words.bays;
    match limit {
        Some(limit) if limit < needed => {
            format!(in alloc;
                "apiaggd: warning: --bays={bays} needs up to {needed} open files, and the limit is {limit} (LimitNOFILE, 'ulimit -n')\n"
            )
        }
        _ => Ok(String::new(alloc)),
    }
}
