//! Audit events and what becomes of them, over the cases of this folder's `data`, a case a line: what is kept of a body,
//! the event of a stage, its line, what fits of it, what is noted of tries, the URLs of webhooks, and posts with what
//! is made of their replies. Each row is printed, and below it all that came of it.
//!
//! The members of a line and their order are those of `Event` of `audit.k8s.io/v1` (Kubernetes, kube-apiserver Audit
//! Configuration (v1)); its stages and levels show bodies as Kubernetes' page on auditing says. Lengths were counted from
//! the members' own texts. URLs are those of the URL Standard, and replies those of RFC 9112, worked out by hand.
#![tactic(auto)]

mod bodies;
mod events;
mod fixtures;
mod noted;
mod posts;
mod urls;

use bodies::show_body;
use case_rows::{is_row, read_cases};
use events::show_event;
use noted::show_notes;
use posts::{show_post, show_reply};
use std::io;
use std::process::ExitCode;
use urls::show_url;

// The files of cases, in the order in which they are shown.
const FILES: [&str; 6] = [
    "bodies.txt",
    "events.txt",
    "notes.txt",
    "urls.txt",
    "posts.txt",
    "replies.txt",
];

fn show_row(rt: &HostRuntime, name: &str, row: &str) -> io::Result<()> {
    println!(rt; "{row}")?;
    match name {
        "bodies.txt" => show_body(rt, row),
        "events.txt" => show_event(rt, row),
        "notes.txt" => show_notes(rt, row),
        "urls.txt" => show_url(rt, row),
        "posts.txt" => show_post(rt, row),
        _ => show_reply(rt, row),
    }
}

fn show_rows(rt: &HostRuntime, name: &str, text: &str) -> io::Result<()> {
    println!(rt; "== {name}")?;
    for row in text.lines() {
        if is_row(row) {
            show_row(rt, name, row)?;
        }
    }
    Ok(())
}

fn show_file(rt: &HostRuntime, name: &str) -> io::Result<()> {
    let text = read_cases(rt, name)?;
    show_rows(rt, name, text.as_str())
}

fn show_files(rt: &HostRuntime) -> io::Result<()> {
    for name in FILES {
        show_file(rt, name)?;
    }
    Ok(())
}

fn main(rt: HostRuntime) -> ExitCode {
    match show_files(&rt) {
        Ok(()) => ExitCode::from(0),
        Err(_) => ExitCode::from(1),
    }
}
