//! `bench_queue` pushes lines through a queue by many threads while another one pops them, so that `bench/queue` can print
//! how fast that is.
//!
//! Words: the queue, how many lines each lane pushes, and how many lanes there are. Standard input is the line. The status
//! is 0 where each line came out of the queue, and 1 otherwise.
//!
//! | queue | is |
//! |---|---|
//! | `shared` | the audit queue that bays share: `shared_queue` |
//! | `plain` | the `ArrayQueue` of `crossbeam_queue` |
//! | `both` | the one and then the other: of each only the lines that came are printed, which are as many each time |
//!
//! Printed are counts, each by its name: the lines that were pushed, how often the full queue refused one, the lines that
//! were popped, how often there was none, and the nanoseconds from before the threads began until all had ended.
#![tactic(auto)]

mod bay_lane;
mod ends;
mod plain;
mod popping;
mod pushing;
mod shared;
mod timing;

use plain::plain;
use shared::shared;
use std::alloc::Global;
use std::io::{Print, Read};
use std::process::ExitCode;
use std::rt::Clock;
use std::sync::Wait;
use std::thread::Threads;
use std::{env, io};
use timing::{Figures, Work};

/// What is asked for.
#[derive(Drop)]
struct Asked {
    queue: String,
    text: Vec<u8>,
    lines: u32,
    lanes: u16,
}

fn read_words(rt: &HostRuntime) -> Option<Asked> {
    let alloc = rt.alloc();
    let words: Vec<String> = env::args(rt).ok()?.skip(1).collect(alloc).ok()?;
    let [queue, lines, lanes] = words.as_slice() else {
        return None;
    };
    let mut text = Vec::new(alloc);
    rt.stdin().read_to_end(&mut text).ok()?;
    Some(Asked {
        queue: String::from_str(alloc, queue.as_str()).ok()?,
        text,
        lines: lines.as_str().parse().ok()?,
        lanes: lanes.as_str().parse().ok()?,
    })
}

// Whether each line was pushed, and popped.
fn all_came(work: Work<'_>, figures: &Figures) -> bool {
    let lines = u64::from(work.lines).saturating_mul(u64::from(work.lanes));
    figures.pushed == lines && figures.popped == lines
}

fn print<R: Print>(rt: &R, figures: &Figures) -> io::Result<()> {
    println!(rt; "pushed {}\nfull {}", figures.pushed, figures.refused)?;
    println!(rt; "popped {}\nempty {}", figures.popped, figures.empties)?;
    println!(rt; "nanoseconds {}", figures.nanoseconds)
}

fn time<R: Threads + Wait + Clock + Copy + Send + Sync + Drop>(
    rt: R,
    alloc: Global,
    queue: &str,
    work: Work<'_>,
) -> Option<Figures> {
    match queue {
        "shared" => shared(rt, alloc, work),
        "plain" => plain(rt, alloc, work),
        _ => None,
    }
}

// Whether each line came, of one queue or of both.
fn run<R: Threads + Wait + Clock + Print + Copy + Send + Sync + Drop>(
    rt: R,
    alloc: Global,
    queue: &str,
    work: Work<'_>,
) -> Option<bool> {
    if queue != "both" {
        let figures = time(rt, alloc, queue, work)?;
        print(&rt, &figures).ok()?;
        return Some(all_came(work, &figures));
    }
    let mut good = true;
    for queue in ["shared", "plain"] {
        let figures = time(rt, alloc, queue, work)?;
        println!(rt; "{queue} {}", figures.popped).ok()?;
        good = good && all_came(work, &figures);
    }
    Some(good)
}

fn main(rt: HostRuntime) -> ExitCode {
    let alloc = rt.alloc();
    let Some(asked) = read_words(&rt) else {
        return ExitCode::from(1);
    };
    let work = Work {
        text: asked.text.as_slice(),
        lines: asked.lines,
        lanes: asked.lanes,
    };
    match run(rt, alloc, asked.queue.as_str(), work) {
        Some(true) => ExitCode::from(0),
        _ => ExitCode::from(1),
    }
}
