//! Cases of command lines and files: what `explain` and `serve` read from the words after the program's name, which
//! options there are, what the files of a configuration give, and what is said of words, files and requests that are
//! refused. Each file of `data` holds the cases of one matter, one a line; a row is printed with what comes of it, and
//! standard output is compared byte by byte.
//!
//! The expected values are worked out by hand: from the README's tables of options for command lines, from RFC 8259 for
//! the places where JSON breaks, from `audit.k8s.io/v1` for policies, and from `apiregistration.k8s.io/v1` for APIServices.
#![tactic(auto)]

mod config;
mod endings;
mod lines;
mod options;
mod refusals;
mod runs;
mod shelf;

use case_rows::{is_row, read_cases};
use std::alloc::{AllocError, Global};
use std::process::ExitCode;

// The files of cases, one after another.
const MATTERS: &str = "\
explain.txt
serve.txt
options.txt
bad-words.txt
files.txt
refused-files.txt
runs.txt
refusals.txt
positions.txt
";

// What comes of a row, which ends with a line feed. The files that rows of `files.txt` name stand in `contents`.
fn answer(rt: &HostRuntime, matter: &str, contents: &str, row: &str) -> Result<String, AllocError> {
    let alloc = rt.alloc();
    match matter {
        "explain.txt" => lines::explain(alloc, row),
        "serve.txt" => lines::serve(alloc, row),
        "options.txt" => options::table(alloc, row),
        "bad-words.txt" => lines::first_bad_word(alloc, row),
        "files.txt" => config::loaded(alloc, contents, row),
        "refused-files.txt" => config::refused(alloc, contents, row),
        "runs.txt" => runs::ended(rt, row),
        "refusals.txt" => refusals::refused(alloc, row),
        _ => refusals::position(alloc, row),
    }
}

// Whether all rows of a matter could be read and printed.
fn show(rt: &HostRuntime, matter: &str, contents: &str) -> bool {
    let Ok(cases) = read_cases(rt, matter) else {
        return false;
    };
    for row in cases.lines() {
        if !is_row(row) {
            continue;
        }
        match answer(rt, matter, contents, row) {
            Ok(text) if print!(rt; "{row} => {text}").is_ok() => {}
            _ => return false,
        }
    }
    true
}

fn main(rt: HostRuntime) -> ExitCode {
    let Ok(contents) = read_cases(&rt, "contents.txt") else {
        return ExitCode::from(1);
    };
    for matter in MATTERS.lines() {
        if println!(rt; "== {matter}").is_err() || !show(&rt, matter, contents.as_str()) {
            return ExitCode::from(1);
        }
    }
    ExitCode::from(0)
}
