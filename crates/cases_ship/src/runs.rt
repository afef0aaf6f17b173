// Runs of `apiaggd ship` over a webhook and a clock in memory: what each ends with, what it writes, and what standard error says of it, on standard
// output, where it is compared byte by byte. A row of `data/runs.txt` has a command line; the bytes of its log; what the peer answers to each post,
// a status, `bad` for bytes that are no HTTP, and `gone` where it can't be dialed; the microseconds from each moment of the clock to the next; the
// numbers of the calls of the plant that fail; and how many bytes the output takes. A field that is `-` stands for none.
ghost use Rattle.std.specs.Prelude.{IfOk};
ghost use Rattle.std.specs.List.{All};
ghost use Rattle.front_plants.specs.Unused.{IsUnusedDial};

use crate::peers::peer_of;
use case_rows::{bytes_of, fields, is_row, read_cases};
use command_ends::{Ended, ReaderSource};
use front_base::{Moment, NoMemory};
use front_plants::{MemParts, MemPlant, NotesRoom};
use front_ports::{MemBytes, MemClock, MemDial};
use log_ship::Shipment;
use ship_command::{Shipped, run_ship, told_text};
use std::alloc::{AllocError, Global};
use std::sync::Wait;
use std::thread::Threads;
use truncate_backend::MemNotes;
use webhook_sink::WebhookSink;

// More than any summary has.
const MOST_WRITTEN: u64 = 4096;

type Left = Shipped<WebhookSink<MemDial, MemNotes>, MemClock>;

fn words_of(alloc: Global, line: &str) -> Result<Vec<String>, AllocError> {
    let mut words = Vec::new(alloc);
    for word in line.split_whitespace() {
        words.push(String::from_str(alloc, word)?)?;
    }
    Ok(words)
}

fn numbers_of(alloc: Global, text: &str) -> Result<Vec<u64>, AllocError> {
    let mut numbers = Vec::new(alloc);
    for word in text.split_whitespace() {
        if let Ok(number) = word.parse::<u64>() {
            numbers.push(number)?;
        }
    }
    Ok(numbers)
}

// A number, or another one where there is none.
fn number_or(text: &str, default: u64) -> u64 {
    text.parse::<u64>().unwrap_or(default)
}

// The bytes of a field, none of one that is `-`.
fn log_of(alloc: Global, field: &str) -> Vec<u8> {
    bytes_of(alloc, if field == "-" { "" } else { field })
}

// One webhook, whose peer answers so; none where no answer is given.
fn hooks_of(alloc: Global, answers: &str) -> Result<Vec<MemDial>, NoMemory>
    ensures { IfOk result (λ hooks. All IsUnusedDial hooks.items) }
{
    let mut hooks = Vec::new(alloc);
    if answers != "-" {
        hooks.push(peer_of(alloc, answers)?)?;
    }
    Ok(hooks)
}

fn plant_of<R>(
    rt: &R,
    alloc: Global,
    answers: &str,
    step: u64,
    fails: Vec<u64>,
) -> Result<MemPlant<R>, NoMemory> {
    let parts = MemParts {
        boot: 0,
        allots: Vec::new(alloc),
        doors: Vec::new(alloc),
        dials: Vec::new(alloc),
        logs: Vec::new(alloc),
        hooks: hooks_of(alloc, answers)?,
        start: Moment::epoch(),
        step,
        room: NotesRoom {
            notes: 64,
            lines: 1024,
            bytes: 65_536,
        },
        fails,
    };
    MemPlant::new(rt, alloc, parts)
}

// What is said of lines that were shipped.
fn lines_text(alloc: Global, shipment: Option<Shipment>) -> Result<String, AllocError> {
    match shipment {
        Some(shipment) => told_text(alloc, shipment, "why the last post failed"),
        None => Ok(String::new(alloc)),
    }
}

// The status of a run, what it wrote, and what is said of it.
fn text_of(
    alloc: Global,
    words: &[String],
    left: Left,
    written: &[u8],
) -> Result<String, AllocError> {
    let Shipped {
        status,
        why,
        shipment,
        sink,
        clock: _,
    } = left;
    drop(sink);
    let ended = Ended::of(status, why);
    let told = ended.told(alloc, words, None)?;
    let lines = lines_text(alloc, shipment)?;
    let written = str::from_utf8(written).unwrap_or("?");
    format!(in alloc; "{}\n{written}{told}{lines}", status.code())
}

// What comes of a row.
fn run_row<R: Threads + Wait + Copy + Drop>(rt: &R, alloc: Global, row: &str) -> Option<String> {
    let (line, rest) = fields(row);
    let (log, rest) = fields(rest);
    let (answers, rest) = fields(rest);
    let (step, rest) = fields(rest);
    let (fails, most) = fields(rest);
    let words = words_of(alloc, line).ok()?;
    let log = log_of(alloc, log);
    let fails = numbers_of(alloc, fails).ok()?;
    let mut plant = plant_of(rt, alloc, answers, number_or(step, 0), fails).ok()?;
    let mut input = ReaderSource::new(log.as_slice());
    let mut out = MemBytes::new(alloc, number_or(most, MOST_WRITTEN), Vec::new(alloc)).ok()?;
    let left = run_ship(alloc, &words, &mut plant, &mut input, &mut out);
    text_of(alloc, words.as_slice(), left, out.bytes()).ok()
}

/// Prints the runs of `data/runs.txt`, and answers whether each could be.
pub fn show_runs<R: Threads + Wait + Copy + Drop>(host: &HostRuntime, rt: &R) -> bool {
    let Ok(runs) = read_cases(host, "runs.txt") else {
        return false;
    };
    for row in runs.lines() {
        if !is_row(row) {
            continue;
        }
        match run_row(rt, host.alloc(), row) {
            Some(answer) if print!(host; "apiaggd {row}\n{answer}").is_ok() => {}
            _ => return false,
        }
    }
    true
}
