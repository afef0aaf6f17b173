// The calls, each made so often.
use crate::sinks::{LoopDial, WriterSink};
use apiservice_rows::{Row, Rows, read_rows};
use apiservice_table::{Change, RouteTable};
use front_base::{Bytes, Line};
use log_sink::LogSink;
use std::alloc::Global;
use std::io::Write;
use truncate_backend::{BatchSink, NoNotes};
use webhook_sink::WebhookSink;

/// Whether the text is JSON, as so many checks say.
pub fn check(text: &[u8], times: u32) -> bool {
    let mut good = true;
    for _ in 0..times {
        good = good && json_span::check(text).is_ok();
    }
    good
}

/// Whether the text was made compact so often.
pub fn compact(alloc: Global, text: &[u8], times: u32) -> bool {
    let mut good = true;
    for _ in 0..times {
        good = good && json_span::compact(alloc, text).is_ok();
    }
    good
}

/// Whether the list was read so often.
pub fn rows(alloc: Global, text: &[u8], times: u32) -> bool {
    let mut good = true;
    for _ in 0..times {
        good = good && read_rows(alloc, text).is_ok();
    }
    good
}

fn add_row(alloc: Global, table: &mut RouteTable, row: &Row) -> Option<()> {
    let row = row.copy(alloc).ok()?;
    table.apply(alloc, Change::Create(row)).ok()
}

fn table_over(alloc: Global, rows: &[Row]) -> Option<RouteTable> {
    let mut table = RouteTable::from_rows(alloc, Rows::new(Vec::new(alloc))).ok()?;
    for row in rows {
        if add_row(alloc, &mut table, row).is_none() {
            drop(table);
            return None;
        }
    }
    Some(table)
}

// A table of the rows in a list.
pub fn table_of(alloc: Global, text: &[u8]) -> Option<RouteTable> {
    let rows = read_rows(alloc, text).ok()?;
    let table = table_over(alloc, rows.as_slice());
    drop(rows);
    table
}

fn key_of(alloc: Global, row: &Row) -> Option<(String, String)> {
    let group = String::from_str(alloc, row.group.as_str()).ok()?;
    let version = String::from_str(alloc, row.version.as_str()).ok()?;
    Some((group, version))
}

// The group and the version of so many rows, spread evenly over the list: of all, where it has no more.
pub fn keys_of(alloc: Global, rows: &[Row], most: usize) -> Option<Vec<(String, String)>> {
    let mut keys = Vec::new(alloc);
    for row in rows.iter().step_by((rows.len() / most.max(1)).max(1)) {
        keys.push(key_of(alloc, row)?).ok()?;
    }
    Some(keys)
}

// Whether so many look-ups found a row, in turn of these.
fn are_found(table: &RouteTable, keys: &[(String, String)], times: u32) -> Option<bool> {
    let mut found = true;
    let mut turn = 0;
    for _ in 0..times {
        let (group, version) = keys.get(turn)?;
        found = found && table.find(group.as_str(), version.as_str()).is_some();
        turn = if turn + 1 < keys.len() { turn + 1 } else { 0 };
    }
    Some(found)
}

fn find_in(alloc: Global, rows: &[Row], times: u32, most: usize) -> Option<bool> {
    let keys = keys_of(alloc, rows, most)?;
    let table = table_over(alloc, rows)?;
    let found = are_found(&table, keys.as_slice(), times);
    drop(table);
    found
}

/// Whether so many look-ups found a row, in turn of so many rows of the list.
pub fn find(alloc: Global, text: &[u8], times: u32, most: usize) -> Option<bool> {
    let rows = read_rows(alloc, text).ok()?;
    let found = find_in(alloc, rows.as_slice(), times, most);
    drop(rows);
    found
}

// The most bytes of a line, and the most lines of a try.
const MOST_LINE_BYTES: usize = 4_194_304;

const MOST_LINES: usize = 100_000;

// The text as a line, which is not too long.
fn line_of(alloc: Global, text: &[u8]) -> Option<Line> {
    let bytes = text.to_vec(alloc).ok()?;
    if bytes.len() > MOST_LINE_BYTES {
        return None;
    }
    Some(Line {
        bay: 0,
        number: 0,
        bytes: Bytes::new(bytes),
    })
}

// The same so many times.
fn lines_of(alloc: Global, text: &[u8], count: usize) -> Option<Vec<Line>> {
    let mut lines = Vec::new(alloc);
    for _ in 0..count {
        lines.push(line_of(alloc, text)?).ok()?;
    }
    Some(lines)
}

// Whether the sink took the lines so often. None at all are no try.
fn put<S: BatchSink>(sink: &mut S, lines: &[Line], times: u32) -> Option<bool> {
    if lines.is_empty() || lines.len() > MOST_LINES {
        return None;
    }
    let mut good = true;
    for _ in 0..times {
        good = good && sink.put(lines).is_ok();
    }
    Some(good)
}

/// Whether a log took a try of so many lines so often, each of them the text.
pub fn log<W: Write + Drop>(
    alloc: Global,
    text: &[u8],
    times: u32,
    count: usize,
    writer: W,
) -> Option<bool> {
    let lines = lines_of(alloc, text, count)?;
    let out = WriterSink { writer, faults: 0 };
    let mut log = LogSink::start(alloc, out, NoNotes).ok()?;
    put(&mut log, lines.as_slice(), times)
}

/// Whether a webhook over links in memory took them.
pub fn post(alloc: Global, text: &[u8], times: u32, count: usize) -> Option<bool> {
    let lines = lines_of(alloc, text, count)?;
    let url = "http://127.0.0.1:9400/audit";
    let mut hook = WebhookSink::start(alloc, url, LoopDial::new(alloc), NoNotes).ok()?;
    put(&mut hook, lines.as_slice(), times)
}
