//! Cases of the plain types, of how they are spelled and read, of JSON values, of JSON texts as they are spelled, of ports in
//! memory, and of what runs in threads.
//!
//! Each file of `data` holds rows, and says what they show. Each row is printed with its answer. The expected answers are those
//! of the public standard that a file names, or are worked out by hand from the rule in it, and none is taken from a run.
//!
//! In a row a field `-` is empty.
#![tactic(auto)]

mod copies;
mod numbers;
mod peers;
mod ports;
mod roles;
mod rows;
mod spans;
mod texts;
mod values;

use case_rows::{is_row, read_cases};
use copies::show_copy;
use front_base::NoMemory;
use numbers::{show_id, show_moment, show_number, show_versions};
use peers::{show_dial, show_door};
use ports::show_port;
use roles::run_all;
use spans::show_json;
use std::alloc::Global;
use std::process::ExitCode;
use std::sync::Wait;
use std::thread::Threads;
use texts::{show_address, show_name, show_parts, show_path};
use values::{show_member, show_nested, show_value};

const FILES: &str = "\
addresses.txt
parts.txt
paths.txt
names.txt
numbers.txt
ids.txt
moments.txt
versions.txt
copies.txt
values.txt
nested.txt
members.txt
json_texts.txt
json_faults.txt
json_brackets.txt
json_compact.txt
json_quoted.txt
json_escaped.txt
json_members.txt
port_conns.txt
port_wishes.txt
port_sinks.txt
port_files.txt
port_doors.txt
port_dials.txt
port_clocks.txt
";

// The same for a file of JSON texts or of ports.
fn show_other(alloc: Global, out: &mut String, file: &str, row: &str) -> Result<(), NoMemory> {
    match file {
        "port_doors.txt" => show_door(alloc, out, row),
        "port_dials.txt" => show_dial(alloc, out, row),
        _ if file.starts_with("port_") => show_port(alloc, out, file, row),
        _ => show_json(alloc, out, file, row),
    }
}

// Writes the answer of a row after what is there.
fn show(alloc: Global, out: &mut String, file: &str, row: &str) -> Result<(), NoMemory> {
    match file {
        "addresses.txt" => show_address(alloc, out, row),
        "parts.txt" => show_parts(alloc, out, row),
        "paths.txt" => show_path(alloc, out, row),
        "names.txt" => show_name(out, row),
        "numbers.txt" => show_number(alloc, out, row),
        "ids.txt" => show_id(alloc, out, row),
        "moments.txt" => show_moment(alloc, out, row),
        "versions.txt" => show_versions(out, row),
        "copies.txt" => show_copy(alloc, out, row),
        "values.txt" => show_value(alloc, out, row),
        "nested.txt" => show_nested(alloc, out, row),
        "members.txt" => show_member(alloc, out, row),
        _ => show_other(alloc, out, file, row),
    }
}

// Prints a row with its answer.
fn print_case(rt: &HostRuntime, file: &str, row: &str) -> Option<()> {
    let mut answer = String::new(rt.alloc());
    match show(rt.alloc(), &mut answer, file, row) {
        Ok(()) => print!(rt; "{row} => {answer}\n").ok(),
        Err(_) => None,
    }
}

fn print_cases(rt: &HostRuntime, file: &str, text: &str) -> Option<()> {
    print!(rt; "== {file}\n").ok()?;
    for line in text.lines() {
        if is_row(line) {
            print_case(rt, file, line)?;
        }
    }
    Some(())
}

fn print_file(rt: &HostRuntime, file: &str) -> Option<()> {
    match read_cases(rt, file) {
        Ok(text) => print_cases(rt, file, text.as_str()),
        Err(_) => None,
    }
}

// Prints what four bays and two drainers have done, each in a thread of its own.
fn print_roles<R: Threads + Wait + Sync>(rt: &HostRuntime, threads: &R) -> Option<()> {
    print!(rt;
        "== roles\n4 bays, 2 drainers => {:?}\n",
        run_all(threads, rt.alloc())
    )
    .ok()
}

fn main(rt: HostRuntime) -> ExitCode {
    for file in FILES.lines() {
        let Some(()) = print_file(&rt, file) else {
            return ExitCode::from(1);
        };
    }
    match print_roles(&rt, &rt) {
        Some(()) => ExitCode::from(0),
        None => ExitCode::from(1),
    }
}
