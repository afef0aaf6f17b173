// A run of `serve`, with two connections.
use crate::due::{Due, Seen};
use crate::order::Order;
use crate::told::Told;
use case_faults::{Ended, Run, ready_row, run_ready};
use command_ends::Status;
use serve_runs::RunStatus;
use std::alloc::Global;
use std::sync::Wait;
use std::thread::Threads;

// What the second connection asks for, and the first one doesn't.
const SECOND: &str = "\"requestURI\":\"/livez\"";

fn is_out_of_memory(status: Status) -> bool {
    match status {
        Status::NoMemory => true,
        _ => false,
    }
}

// The lines of the log before the first one of the second connection, and the rest.
fn split_log(log: &str) -> (&str, &str) {
    let mut at = 0usize;
    for line in log.split_inclusive('\n') {
        if line.contains(SECOND) {
            break;
        }
        at = at.saturating_add(line.len());
    }
    (log.get(..at).unwrap_or(""), log.get(at..).unwrap_or(""))
}

fn log_of(ended: &Ended) -> &str {
    match ended.log.own.as_slice() {
        [log] => str::from_utf8(log.out().bytes()).unwrap_or("no text"),
        _ => "no log",
    }
}

// What the two clients got.
fn clients(ended: &Ended) -> Option<(&str, &str)> {
    match ended.bays.as_slice() {
        [bay] => match bay.door.given() {
            [first, second] => Some((
                str::from_utf8(first.output.as_slice()).unwrap_or("no text"),
                str::from_utf8(second.output.as_slice()).unwrap_or("no text"),
            )),
            _ => None,
        },
        _ => None,
    }
}

// How many connections memory stopped, where one bay had two and the others ended.
fn stopped(ended: &Ended) -> Option<u64> {
    match ended.bays.as_slice() {
        [bay] => {
            let stopped = bay.counts.no_memory;
            if stopped.saturating_add(bay.counts.ended) == 2 {
                Some(stopped)
            } else {
                None
            }
        }
        _ => None,
    }
}

// The webhook was offered as many lines as the log has, and was sent those that its queue took.
fn are_posted(ended: &Ended, lines: usize) -> bool {
    match &ended.hook.drain {
        Some(drain) => drain.written.saturating_add(drain.fulls) == lines as u64 && drain.lost == 0,
        None => false,
    }
}

fn is_done(ended: &Ended, due: &Due) -> bool {
    let log = log_of(ended);
    let (log, second_log) = split_log(log);
    let (Some((client, second_client)), Some(stopped)) = (clients(ended), stopped(ended)) else {
        return false;
    };
    let first = Seen { log, client };
    let second = Seen {
        log: second_log,
        client: second_client,
    };
    stopped <= 1
        && due.is_served(&first, &second, stopped == 1)
        && are_posted(
            ended,
            log.lines()
                .count()
                .saturating_add(second_log.lines().count()),
        )
}

fn is_kept(ended: &Ended, due: &Due) -> bool {
    match ended.status {
        RunStatus::Done => is_done(ended, due),
        RunStatus::NoMemory => ended.bays.is_empty(),
        _ => false,
    }
}

fn word(ended: &Ended) -> &'static str {
    match (ended.status, stopped(ended)) {
        (RunStatus::Done, Some(0)) => "status 0",
        (RunStatus::Done, Some(1)) => "status 0, a connection stopped",
        (RunStatus::NoMemory, _) => "status 6",
        _ => "another end",
    }
}

fn told(run: Run, refused: bool, due: &Due) -> Told {
    match run {
        Run::Ended(ended) => Told {
            kept: is_kept(&ended, due),
            how: word(&ended),
            refused,
        },
        Run::Uncounted => Told {
            kept: false,
            how: "changes not counted",
            refused,
        },
        Run::Refused(status) => Told {
            kept: is_out_of_memory(status),
            how: "status 6",
            refused,
        },
    }
}

/// What is told of `serve` over that script.
pub fn serves<R: Threads + Wait + Copy + Send + Sync + Drop>(
    threads: &R,
    alloc: Global,
    due: &Due,
    order: &Order,
) -> Told {
    let Some(ready) = ready_row(threads, alloc, due.script.as_str(), "none") else {
        return Told::before();
    };
    if order.begin(alloc) {
        drop(ready);
        return Told::before();
    }
    let run = run_ready(threads, alloc, ready);
    let refused = order.end(alloc);
    told(run, refused, due)
}
