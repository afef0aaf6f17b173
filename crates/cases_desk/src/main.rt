//! Cases of `explain` and of a rehearsal's plan: runs over an input that comes in pieces and an output that takes some, with
//! the status and the bytes of each; runs of many requests over one table of APIs, with what each request comes to; the
//! statuses; the requests and the summary of a rehearsal; runs that are refused, or leave events out, with what standard error
//! says of each; and the ports between `explain` and the system, also where they fail. Each file of `data` holds the cases of one
//! matter, one a line; a row is printed with what comes of it, and standard output is compared byte by byte.
//!
//! The expected values are worked out by hand: events from `audit.k8s.io/v1` and the policies of kube-apiserver's audit,
//! codes from `apiregistration.k8s.io/v1`, refused requests from RFC 9112, and a rehearsal's from the kinds of its requests.
#![tactic(auto)]

mod plans;
mod ports;
mod refusals;
mod run;
mod talks;
mod trickle;

use case_rows::{is_row, read_cases};
use command_ends::Status;
use std::alloc::{AllocError, Global};
use std::process::ExitCode;

// The files of cases that are runs of many requests, and then those whose rows stand alone.
const TALKS: &str = "routes.txt\ncodes.txt\n";

const MATTERS: &str = "runs.txt\nstatuses.txt\nplans.txt\nbays.txt\nrefused.txt\nports.txt\n";

fn status_of(code: u8) -> Option<Status> {
    match code {
        0 => Some(Status::Done),
        2 => Some(Status::Usage),
        3 => Some(Status::Configuration),
        4 => Some(Status::ReadFault),
        5 => Some(Status::PortFault),
        6 => Some(Status::NoMemory),
        7 => Some(Status::WriteFault),
        8 => Some(Status::NumbersSpent),
        9 => Some(Status::Input),
        _ => None,
    }
}

// The status that is to have a code, the code that it has, and its word.
fn status(alloc: Global, row: &str) -> Result<String, AllocError> {
    let status = status_of(row.parse::<u8>().unwrap_or_default());
    let code = status.map(|status| status.code());
    let word = status.and_then(|status| status.word());
    format!(in alloc; "{status:?}, {code:?}, {word:?}\n")
}

// What comes of a row, which ends with a line feed.
fn answer(rt: &HostRuntime, matter: &str, row: &str) -> Result<String, AllocError> {
    let alloc = rt.alloc();
    match matter {
        "runs.txt" => run::answer(rt, row),
        "statuses.txt" => status(alloc, row),
        "plans.txt" => plans::plan(alloc, row),
        "bays.txt" => plans::bays(alloc, row),
        "refused.txt" => refusals::answer(rt, row),
        _ => ports::answer(rt, row),
    }
}

// Whether all rows of a matter could be read and printed.
fn show(rt: &HostRuntime, matter: &str) -> bool {
    let Ok(cases) = read_cases(rt, matter) else {
        return false;
    };
    for row in cases.lines() {
        if !is_row(row) {
            continue;
        }
        match answer(rt, matter, row) {
            Ok(text) if print!(rt; "{row} => {text}").is_ok() => {}
            _ => return false,
        }
    }
    true
}

// The same of a file whose rows are the requests of one run.
fn show_talk(rt: &HostRuntime, matter: &str) -> bool {
    let Ok(cases) = read_cases(rt, matter) else {
        return false;
    };
    match talks::answers(rt, cases.as_str()) {
        Ok(text) => print!(rt; "{text}").is_ok(),
        Err(_) => false,
    }
}

fn main(rt: HostRuntime) -> ExitCode {
    for matter in TALKS.lines() {
        if println!(rt; "== {matter}").is_err() || !show_talk(&rt, matter) {
            return ExitCode::from(1);
        }
    }
    for matter in MATTERS.lines() {
        if println!(rt; "== {matter}").is_err() || !show(&rt, matter) {
            return ExitCode::from(1);
        }
    }
    ExitCode::from(0)
}
