// The log: what its tries answer and write.
use crate::words::{add_notes, add_offer, add_runs, fails_of, letters, line, number_in};
use case_rows::fields;
use front_base::NoMemory;
use front_ports::MemBytes;
use log_sink::LogSink;
use std::alloc::Global;
use truncate_backend::{BatchSink, Lane, MemNotes, OwnLane};

type Log = LogSink<MemBytes, MemNotes>;

// A log with room for 1,000,000 bytes, whose writes of these numbers fail, and room to note so many tries.
fn log_of(alloc: Global, tries: &str, fails: &str) -> Result<Log, NoMemory> {
    let notes = MemNotes::new(alloc, number_in(tries), 100, 1_000_000)?;
    match MemBytes::new(alloc, 1_000_000, fails_of(alloc, fails)) {
        Ok(out) => LogSink::start(alloc, out, notes),
        Err(fault) => {
            drop(notes);
            Err(fault)
        }
    }
}

// Puts two lines, of so many letters each, in one try.
fn add_put<S: BatchSink>(alloc: Global, out: &mut String, sink: &mut S, lengths: &str) {
    let (first, second) = lengths.split_once(',').unwrap_or((lengths, ""));
    let lines = [
        letters(alloc, b'a', number_in(first)),
        letters(alloc, b'b', number_in(second)),
    ];
    let answer = sink.put(&lines);
    let _added = write!(out, "[{answer:?}]");
}

fn add_puts(alloc: Global, out: &mut String, log: &mut Log, puts: &str) {
    for lengths in puts.split(' ') {
        add_put(alloc, out, log, lengths);
        add_runs(alloc, out, log.out().bytes());
        add_notes(out, log.notes().notes());
    }
}

/// What tries answer, and after each what was written and noted. A row has the room for notes, the number of the write that fails,
/// and the tries, each of two lines.
pub fn show_log(alloc: Global, out: &mut String, row: &str) {
    let (tries, rest) = fields(row);
    let (fails, puts) = fields(rest);
    if let Ok(mut log) = log_of(alloc, tries, fails) {
        add_puts(alloc, out, &mut log, puts);
        drop(log);
    }
}

fn add_offers(alloc: Global, out: &mut String, lane: &mut OwnLane<Log>, texts: &str) {
    for text in texts.split(' ') {
        add_offer(out, lane.offer(line(alloc, 0, text)));
    }
    add_runs(alloc, out, lane.sink.out().bytes());
}

/// What offers to a log of a bay's own answer, and what was written. A row has the room for notes and the lines.
pub fn show_own(alloc: Global, out: &mut String, row: &str) {
    let (tries, texts) = fields(row);
    if let Ok(sink) = log_of(alloc, tries, "-") {
        let mut lane = OwnLane { sink };
        add_offers(alloc, out, &mut lane, texts);
        drop(lane);
    }
}
