//! Cases of HTTP/1.1 as bytes: heads, bodies in their frames, what is cut from an input, and the requests of a connection.
//!
//! Each file of `data` holds rows, and names the sections of RFC 9112 and RFC 9110 that they come from. Each row is printed
//! with its answer. The expected answers are worked out from those sections, and none is taken from a run.
//!
//! In a row a field `-` is empty. Where bytes come in pieces, each answer is printed with the sizes that it is the same for.
#![tactic(auto)]

mod bodies;
mod connections;
mod heads;
mod inputs;
mod long;
mod rows;
mod runs;

use bodies::{show_body, show_chunk, show_feeds};
use case_rows::{is_row, read_cases};
use connections::show_write;
use front_base::NoMemory;
use heads::{show_named, show_reply, show_request, show_written};
use inputs::{show_connection, show_cut, show_fault};
use long::show_long;
use std::alloc::Global;
use std::process::ExitCode;

const FILES: &str = "\
requests.txt
replies.txt
named.txt
written.txt
bodies.txt
feeds.txt
chunks.txt
cuts.txt
connections.txt
faults.txt
writes.txt
long.txt
";

// Writes the answer of a row after what is there.
fn show(alloc: Global, out: &mut String, file: &str, row: &str) -> Result<(), NoMemory> {
    match file {
        "requests.txt" => show_request(alloc, out, row),
        "replies.txt" => show_reply(alloc, out, row),
        "named.txt" => show_named(alloc, out, row),
        "written.txt" => show_written(alloc, out, row),
        "bodies.txt" => show_body(alloc, out, row),
        "feeds.txt" => show_feeds(alloc, out, row),
        "chunks.txt" => show_chunk(alloc, out, row),
        "cuts.txt" => show_cut(alloc, out, row),
        "connections.txt" => show_connection(alloc, out, row),
        "faults.txt" => show_fault(alloc, out, row),
        "writes.txt" => show_write(alloc, out, row),
        _ => show_long(alloc, out, row),
    }
}

// Prints a row with its answer.
fn print_case(rt: &HostRuntime, file: &str, row: &str) -> Option<()> {
    let mut answer = String::new(rt.alloc());
    match show(rt.alloc(), &mut answer, file, row) {
        Ok(()) => print!(rt; "{row} => {answer}\n").ok(),
        Err(_) => None,
    }
}

fn print_cases(rt: &HostRuntime, file: &str, text: &str) -> Option<()> {
    print!(rt; "== {file}\n").ok()?;
    for line in text.lines() {
        if is_row(line) {
            print_case(rt, file, line)?;
        }
    }
    Some(())
}

fn print_file(rt: &HostRuntime, file: &str) -> Option<()> {
    match read_cases(rt, file) {
        Ok(text) => print_cases(rt, file, text.as_str()),
        Err(_) => None,
    }
}

fn main(rt: HostRuntime) -> ExitCode {
    for file in FILES.lines() {
        let Some(()) = print_file(&rt, file) else {
            return ExitCode::from(1);
        };
    }
    ExitCode::from(0)
}
