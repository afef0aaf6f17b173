//! `bench_front` makes one call again and again on its standard input, so that the scripts in `bench/` can time it.
//!
//! Words: the call, how often, and others by the call. The status is 0 where every call succeeded, and 1 otherwise.
//!
//! | call | input | other words |
//! |---|---|---|
//! | `check`, `compact` | a JSON text | |
//! | `rows` | a list of APIServices | |
//! | `find` | a list of APIServices | how many of its rows are looked up in turn |
//! | `own`, `shared` | a list of APIServices | how many threads look up rows, in tables of their own or in one; `read`, or `write` where another one changes a row every hundredth of a second |
//! | `log` | a line | how many lines a try has, and the file, which is made anew |
//! | `post` | a line | how many lines a try has |
//! | `connection` | a request, which a connection gives so often | |
#![tactic(auto)]

mod calls;
mod conn;
mod connection;
mod look_ups;
mod sinks;

use calls::{check, compact, find, log, post, rows};
use connection::connection;
use look_ups::{LookUps, own, shared};
use std::alloc::Global;
use std::io::Read;
use std::process::ExitCode;
use std::rt::Clock;
use std::sync::Wait;
use std::thread::Threads;
use std::{env, fs};

fn words(rt: &HostRuntime) -> Option<Vec<String>> {
    env::args(rt).ok()?.skip(1).collect(rt.alloc()).ok()
}

fn input(rt: &HostRuntime) -> Option<Vec<u8>> {
    let mut input = Vec::new(rt.alloc());
    rt.stdin().read_to_end(&mut input).ok()?;
    Some(input)
}

// Makes a call with these words after its name.
fn call(rt: &HostRuntime, name: &str, words: &[String], text: &[u8]) -> Option<bool> {
    let [times, others @ ..] = words else {
        return None;
    };
    let alloc = rt.alloc();
    let times = times.as_str().parse::<u32>().ok()?;
    match (name, others) {
        ("check", []) => Some(check(text, times)),
        ("compact", []) => Some(compact(alloc, text, times)),
        ("rows", []) => Some(rows(alloc, text, times)),
        ("find", [most]) => find(alloc, text, times, most.as_str().parse().ok()?),
        ("log", [count, path]) => {
            let count = count.as_str().parse().ok()?;
            log(
                alloc,
                text,
                times,
                count,
                fs::create(rt, path.as_str()).ok()?,
            )
        }
        ("connection", []) => connection(alloc, text, times),
        ("post", [count]) => post(alloc, text, times, count.as_str().parse().ok()?),
        _ => None,
    }
}

// Looks up rows by many threads, with these words after the name of the call.
fn look_up<R: Threads + Wait + Copy + Send + Sync + Drop + Clock>(
    alloc: Global,
    threads: R,
    name: &str,
    words: &[String],
    text: &[u8],
) -> Option<bool> {
    let [times, count, mode] = words else {
        return None;
    };
    let times = times.as_str().parse::<u32>().ok()?;
    let count = count.as_str().parse::<u16>().ok()?;
    let asked = LookUps::new(alloc, text, times, count, mode.as_str() == "write")?;
    if name == "own" {
        own(&threads, alloc, &asked, text)
    } else {
        shared(threads, alloc, &asked, text)
    }
}

fn run<R: Threads + Wait + Copy + Send + Sync + Drop + Clock>(
    rt: &HostRuntime,
    threads: R,
    words: &[String],
) -> Option<bool> {
    let [name, others @ ..] = words else {
        return None;
    };
    let input = input(rt)?;
    match name.as_str() {
        "own" | "shared" => {
            look_up(rt.alloc(), threads, name.as_str(), others, input.as_slice())
        }
        _ => call(rt, name.as_str(), others, input.as_slice()),
    }
}

fn main(rt: HostRuntime) -> ExitCode {
    let done = match words(&rt) {
        Some(words) => run(&rt, rt, words.as_slice()),
        None => None,
    };
    match done {
        Some(true) => ExitCode::from(0),
        _ => ExitCode::from(1),
    }
}
