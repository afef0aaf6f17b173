// One run.
use crate::lines::Ended;
use crate::ports::parts_of;
use crate::script::bays_of;
use crate::setting::{files_of, words_of};
use command_ends::Status;
use front_plants::MemPlant;
use front_ports::MemFiles;
use serve_command::{Served, serve};
use std::alloc::Global;
use std::sync::Wait;
use std::thread::Threads;

fn plant_of<R>(threads: &R, alloc: Global, script: &str, row: &str) -> Option<MemPlant<R>> {
    let parts = parts_of(alloc, script, row).ok()?;
    MemPlant::new(threads, alloc, parts).ok()
}

/// What a row's run came to.
#[derive(Drop)]
pub enum Run {
    /// What is left of it.
    Ended(Ended),
    /// It served, and the changes of its table were not counted.
    Uncounted,
    /// It didn't begin, since its words or files were refused or memory ran out, and this is its status.
    Refused(Status),
}

/// What the run of a row is made of, before it begins.
#[derive(Drop)]
pub struct Ready<R> {
    plant: MemPlant<R>,
    words: Vec<String>,
    files: MemFiles,
}

/// What the run of a row is made of. None where memory ran out.
pub fn ready_row<R>(threads: &R, alloc: Global, script: &str, row: &str) -> Option<Ready<R>> {
    let words = words_of(alloc, bays_of(script)).ok()?;
    let files = files_of(alloc, row).ok()?;
    match plant_of(threads, alloc, script, row) {
        Some(plant) => Some(Ready {
            plant,
            words,
            files,
        }),
        None => None,
    }
}

/// Runs `serve`, from its words and files on.
pub fn run_ready<R: Threads + Wait + Copy + Send + Sync + Drop>(
    threads: &R,
    alloc: Global,
    ready: Ready<R>,
) -> Run {
    let Ready {
        mut plant,
        words,
        mut files,
    } = ready;
    let Served {
        status,
        why: _,
        ended,
        counted,
    } = serve(threads, alloc, &words, &mut files, &mut plant);
    match ended {
        Some(ended) => {
            if counted || ended.bays.is_empty() {
                Run::Ended(ended)
            } else {
                drop(ended);
                Run::Uncounted
            }
        }
        None => Run::Refused(status),
    }
}
