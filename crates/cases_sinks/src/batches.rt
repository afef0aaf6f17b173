// What pumps and flushes of batches do. A batch has at most 2 lines and 300 bytes, and waits for 1000 microseconds.
use crate::words::{add_notes, add_runs, fails_of, letters, number_in};
use batch_backend::{Drainer, Limits};
use bounded_buffer::{RingLane, ring};
use case_rows::fields;
use front_base::{Line, Moment, NoMemory};
use front_ports::MemBytes;
use log_sink::LogSink;
use std::alloc::Global;
use truncate_backend::{Lane, MemNotes, NoNotes};

const LIMITS: Limits = Limits {
    lines: 2,
    bytes: 300,
    wait: 1000,
};

// Offers a line to a ring that has room for it.
fn fill(held: &mut RingLane, line: Line) {
    let _taken = held.offer(line);
}

// A log with room for 10,000 bytes.
fn plain_log(alloc: Global) -> Result<LogSink<MemBytes, NoNotes>, NoMemory> {
    let out = MemBytes::new(alloc, 10_000, Vec::new(alloc))?;
    LogSink::start(alloc, out, NoNotes)
}

// What a pump at this moment does.
fn add_pump(
    out: &mut String,
    held: &mut RingLane,
    log: &mut LogSink<MemBytes, NoNotes>,
    drainer: &mut Drainer,
    at: &str,
) {
    if let Some(now) = Moment::new(number_in(at)) {
        let answer = drainer.pump(held, log, now);
        let _added = write!(out, "[{answer:?}]");
    }
}

fn add_pumps(
    alloc: Global,
    out: &mut String,
    held: &mut RingLane,
    log: &mut LogSink<MemBytes, NoNotes>,
    drainer: &mut Drainer,
    row: &str,
) {
    let (lengths, moments) = fields(row);
    for length in lengths.split(' ') {
        fill(held, letters(alloc, b'x', number_in(length)));
    }
    for at in moments.split(' ') {
        add_pump(out, held, log, drainer, at);
    }
}

/// What each pump does. A row has the lengths of the lines that are there, and the moments of the pumps.
pub fn show_pumps(alloc: Global, out: &mut String, row: &str) {
    let Ok(mut drainer) = Drainer::start(alloc, LIMITS) else {
        return;
    };
    let Ok(mut held) = ring(alloc, 16, 16, 10_000) else {
        return drop(drainer);
    };
    if let Ok(mut log) = plain_log(alloc) {
        add_pumps(alloc, out, &mut held, &mut log, &mut drainer, row);
        drop(log);
    }
    drop(held);
    drop(drainer);
}

// A log with room for 100 bytes, and for notes of so many.
fn failing_log(alloc: Global, fails: &str) -> Result<LogSink<MemBytes, MemNotes>, NoMemory> {
    let notes = MemNotes::new(alloc, 9, 9, 100)?;
    match MemBytes::new(alloc, 100, fails_of(alloc, fails)) {
        Ok(out) => LogSink::start(alloc, out, notes),
        Err(fault) => {
            drop(notes);
            Err(fault)
        }
    }
}

fn add_flush(
    alloc: Global,
    out: &mut String,
    held: &mut RingLane,
    log: &mut LogSink<MemBytes, MemNotes>,
    drainer: &mut Drainer,
    texts: &str,
) {
    for letter in texts.as_bytes() {
        fill(held, letters(alloc, *letter, 3));
    }
    let now = Moment::new(7).unwrap_or(Moment::epoch());
    let answer = drainer.flush_all(held, log, now);
    let _added = write!(out, "{answer:?}");
    add_runs(alloc, out, log.out().bytes());
    add_notes(out, log.notes().notes());
}

/// How many lines a flush wrote, and how many not; what was written, and what was noted. A row has the number of the write that
/// fails, and a letter for each line, which has it three times.
pub fn show_flush(alloc: Global, out: &mut String, row: &str) {
    let (fails, texts) = fields(row);
    let Ok(mut drainer) = Drainer::start(alloc, LIMITS) else {
        return;
    };
    let Ok(mut held) = ring(alloc, 16, 16, 10_000) else {
        return drop(drainer);
    };
    if let Ok(mut log) = failing_log(alloc, fails) {
        add_flush(alloc, out, &mut held, &mut log, &mut drainer, texts);
        drop(log);
    }
    drop(held);
    drop(drainer);
}
