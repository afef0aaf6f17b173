//! `explain` and `serve` over ports in memory, for a run in which memory is refused once: `bench/refused-memory` has each
//! allocation fail in turn, and states on standard input before which run, and how far in it. Without such a line both are run.
//!
//! A line is written of each run: that it kept its promise or broke it, how it ended, and whether memory was refused in it.
//!
//! - `explain` ends with status 0 and all of its lines, or with status 6 and a prefix of them.
//! - `serve` ends with status 6 and no bay, or with status 0 and at most one connection that memory stopped. The log has a prefix of the
//!   lines of that connection, its client a prefix of the bytes, and the other connection is served as ever. The webhook was offered
//!   as many lines as the log has.
#![tactic(auto)]

mod due;
mod explained;
mod order;
mod served;
mod told;

use case_rows::read_cases;
use due::Due;
use explained::explains;
use order::{Order, order_of};
use served::serves;
use std::io;
use std::io::Read;
use std::process::ExitCode;
use std::sync::Wait;
use std::thread::Threads;
use told::Told;

fn text(rt: &HostRuntime, name: &str) -> String {
    match read_cases(rt, name) {
        Ok(text) => text,
        Err(_) => String::new(rt.alloc()),
    }
}

fn tell(rt: &HostRuntime, name: &str, told: &Told) -> io::Result<()> {
    let kept = if told.kept { "kept" } else { "broke" };
    let refused = if told.refused { ", refused in it" } else { "" };
    println!(rt; "{name} {kept} its promise: {}{refused}", told.how)
}

fn tell_explain(rt: &HostRuntime, order: &Order) -> io::Result<()> {
    let requests = text(rt, "requests.http");
    let lines = text(rt, "lines.txt");
    tell(
        rt,
        "explain",
        &explains(rt.alloc(), requests.as_str(), lines.as_str(), order),
    )
}

fn tell_serve<R: Threads + Wait + Copy + Send + Sync + Drop>(
    rt: &HostRuntime,
    threads: &R,
    order: &Order,
) -> io::Result<()> {
    let due = Due {
        script: text(rt, "script.txt"),
        log: text(rt, "log.txt"),
        second_log: text(rt, "second-log.txt"),
        client: text(rt, "client.txt"),
        second_client: text(rt, "second-client.txt"),
    };
    tell(rt, "serve", &serves(threads, rt.alloc(), &due, order))
}

fn tell_runs<R: Threads + Wait + Copy + Send + Sync + Drop>(
    rt: &HostRuntime,
    threads: &R,
) -> io::Result<()> {
    let mut asked = [0u8; 64];
    let length = rt.stdin().read(&mut asked)?;
    let order = order_of(str::from_utf8(asked.get(..length).unwrap_or_default()).unwrap_or(""));
    if order.name != "serve" {
        tell_explain(rt, &order)?;
    }
    if order.name != "explain" {
        tell_serve(rt, threads, &order)?;
    }
    Ok(())
}

fn main(rt: HostRuntime) -> ExitCode {
    match tell_runs(&rt, &rt) {
        Ok(()) => ExitCode::from(0),
        Err(_) => ExitCode::from(1),
    }
}
