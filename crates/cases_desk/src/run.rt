// Runs of `explain`, over the files of this folder.
use crate::trickle::Trickle;
use case_rows::{bytes_of, fields};
use command_ends::SystemFiles;
use explain_run::run_desk;
use front_base::{Bytes, NoMemory};
use front_ports::{MemConn, Script};
use std::alloc::{AllocError, Global};

// Where a row says nothing else, reads give at most so many bytes, and so many of them.
const READ: u64 = 40;

const READS: usize = 400;

// A write takes at most so many bytes, and so many writes don't fail.
const ALL: u64 = 1 << 30;

/// What a run ends with, and what it wrote.
#[derive(Drop)]
pub struct Ran {
    pub status: u8,
    pub output: Vec<u8>,
}

/// The words of a command line after the program's name.
pub fn words_of(alloc: Global, line: &str) -> Result<Vec<String>, AllocError> {
    let mut words = Vec::new(alloc);
    for word in line.split(' ').skip(1) {
        words.push(String::from_str(alloc, word)?)?;
    }
    Ok(words)
}

// The number that a row sets, as `read=7`.
fn set_to(settings: &str, name: &str) -> Option<u64> {
    for setting in settings.split(' ') {
        if let Some((own, number)) = setting.split_once('=') {
            if own == name {
                return number.parse::<u64>().ok();
            }
        }
    }
    None
}

// An input that gives these bytes in reads of `read` bytes, of which the one with the number `failing-read` fails.
fn source_of(alloc: Global, input: Vec<u8>, settings: &str) -> Result<MemConn, NoMemory> {
    let size = u32::try_from(set_to(settings, "read").unwrap_or(READ)).unwrap_or_default();
    let fails = set_to(settings, "failing-read").unwrap_or_default();
    let sizes = vec![in alloc; size; READS]?;
    let read_fails = vec![in alloc; fails]?;
    let script = Script {
        input: Bytes::new(input),
        room: 0,
        sizes,
        read_fails,
        write_fails: Vec::new(alloc),
    };
    MemConn::new(alloc, [127, 0, 0, 1], script)
}

// An output that takes `write` bytes at a time, and fails after `writes` writes.
fn sink_of(alloc: Global, settings: &str) -> Trickle {
    Trickle {
        bytes: Vec::new(alloc),
        most: set_to(settings, "write").unwrap_or(ALL) as usize,
        writes: set_to(settings, "writes").unwrap_or(ALL),
        faults: 0,
    }
}

/// A run of a command line over an input, by what a row sets.
pub fn run(rt: &HostRuntime, line: &str, input: Vec<u8>, settings: &str) -> Result<Ran, NoMemory> {
    let alloc = rt.alloc();
    let words = words_of(alloc, line)?;
    let mut source = source_of(alloc, input, settings)?;
    let mut out = sink_of(alloc, settings);
    let mut files = SystemFiles::new(rt);
    let ended = run_desk(alloc, &words, &mut files, &mut source, &mut out);
    let status = ended.status.code();
    drop(ended);
    drop(source);
    drop(files);
    Ok(Ran {
        status,
        output: out.bytes,
    })
}

// These bytes so many times.
fn repeated(alloc: Global, bytes: &[u8], times: u64) -> Result<Vec<u8>, AllocError> {
    let mut all = Vec::new(alloc);
    for _ in 0..times {
        all.extend_from_slice(bytes)?;
    }
    Ok(all)
}

// The status, how many bytes were written, and the bytes: of an input that was repeated, the last line.
fn comes_to(alloc: Global, ran: &Ran, times: u64) -> Result<String, AllocError> {
    let text = str::from_utf8(ran.output.as_slice()).unwrap_or("not UTF-8");
    let shown = match text.lines().last() {
        Some(line) if times > 1 => line,
        _ => text,
    };
    let end = if shown.is_empty() || shown.ends_with('\n') {
        ""
    } else {
        "\n"
    };
    format!(in alloc; "{}, {} bytes\n{shown}{end}", ran.status, ran.output.len())
}

/// What a row's run comes to: the fields are the command line, the input, and what is set.
pub fn answer(rt: &HostRuntime, row: &str) -> Result<String, AllocError> {
    let alloc = rt.alloc();
    let (line, rest) = fields(row);
    let (input, settings) = fields(rest);
    let times = set_to(settings, "times").unwrap_or(1);
    let input = repeated(alloc, bytes_of(alloc, input).as_slice(), times)?;
    match run(rt, line, input, settings) {
        Ok(ran) => comes_to(alloc, &ran, times),
        Err(NoMemory) => Err(AllocError),
    }
}
