// The start of a run of `serve`, and what is reported until its end: it serves once all of its threads run.
use crate::monitor::Monitor;
use audit_core::SinkMode;
use front_base::NoMemory;
use serve_config::ServeWords;
use serve_report::{RunShape, short_text};
use std::alloc::Global;
use std::sync::Arc;
use std::sync::atomic::{AtomicBool, Ordering};
use std::thread;
use std::thread::{JoinHandle, Threads};
use std::time::Duration;
use tcp_plant::TcpGate;

// How often it looks whether all threads run, and how long it waits for them, in turns.
const TURN_MILLIS: u64 = 2;

const START_TURNS: u64 = 5_000;

// How often it looks whether there is anything to report, or the run is over.
const REPORT_MILLIS: u64 = 50;

/// What a thread that watches a run does.
#[derive(Drop)]
struct RunWatch {
    gate: Arc<TcpGate>,
    // How many bays and drainers there are.
    all: u64,
    // What is said once they all run.
    begun: String,
    monitor: Monitor,
    over: Arc<AtomicBool>,
}

/// The thread that watches a run.
#[derive(Drop)]
pub struct Watcher {
    thread: JoinHandle<()>,
    over: Arc<AtomicBool>,
}

impl Watcher {
    /// Has it report for the last time, and waits for it. The run is over.
    pub fn join<R: Threads>(self, rt: &R) {
        let Watcher { thread, over } = self;
        over.store(true, Ordering::SeqCst);
        thread.join(rt);
    }
}

fn drainer(mode: SinkMode) -> u64 {
    match mode {
        SinkMode::Batch => 1,
        SinkMode::Off | SinkMode::Blocking | SinkMode::Strict => 0,
    }
}

/// How many threads a run has.
pub fn threads_of(words: &ServeWords) -> u64 {
    u64::from(words.bays)
        .saturating_add(drainer(words.log.mode))
        .saturating_add(drainer(words.webhook.mode))
}

// Opens the gate once all threads run, and says so. Where they don't, or the gate is closed first or can't listen, nothing is served.
fn is_begun(host: &HostRuntime, watch: &RunWatch) -> bool {
    let gate = &watch.gate;
    for _ in 0..START_TURNS {
        if gate.is_closed() {
            return false;
        }
        if gate.running() >= watch.all {
            let opened = gate.open().is_ok();
            if opened {
                let begun = watch.begun.as_str();
                let _ = eprint!(host; "{begun}");
            }
            return opened;
        }
        thread::sleep(host, Duration::from_millis(TURN_MILLIS));
    }
    gate.give_up();
    false
}

// Watches the start, and reports until the run is over.
fn watch_run(host: &HostRuntime, watch: &mut RunWatch) {
    if !is_begun(host, watch) {
        return;
    }
    for _ in 0..u64::MAX {
        if watch.over.load(Ordering::SeqCst) {
            break;
        }
        watch.monitor.turn(host, &watch.gate);
        thread::sleep(host, Duration::from_millis(REPORT_MILLIS));
    }
    watch.monitor.end(host, &watch.gate);
}

fn watch_of(
    alloc: Global,
    words: &ServeWords,
    gate: Arc<TcpGate>,
    begun: String,
    over: Arc<AtomicBool>,
) -> Result<RunWatch, NoMemory> {
    let path = match &words.metrics_path {
        Some(path) => Some(path.copy(alloc)?),
        None => None,
    };
    let shape = RunShape {
        bays: words.bays,
        log: words.log.mode,
        webhook: words.webhook.mode,
    };
    Ok(RunWatch {
        gate,
        all: threads_of(words),
        begun,
        monitor: Monitor::new(shape, path),
        over,
    })
}

/// Has a thread open the gate once all threads of the run have begun, say so with this text, and report until the run is over. None
/// where there is no memory or no thread.
pub fn watch<R: Threads>(
    host: HostRuntime,
    rt: &R,
    words: &ServeWords,
    gate: Arc<TcpGate>,
    begun: String,
) -> Option<Watcher> {
    let alloc = host.alloc();
    let over = Arc::new(alloc, AtomicBool::new(false)).ok()?;
    let own = Arc::try_clone(&over).ok()?;
    let mut watch = watch_of(alloc, words, gate, begun, own).ok()?;
    let thread = thread::spawn(rt, move || watch_run(&host, &mut watch)).ok()?;
    Some(Watcher { thread, over })
}

/// That too few threads ran, where that is why nothing was served.
pub fn shortage(alloc: Global, gate: &TcpGate, all: u64) -> Option<String> {
    let running = gate.gave_up()?;
    short_text(alloc, running, all).ok()
}
