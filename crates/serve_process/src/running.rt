// A run of `serve` over the handles of this process, and what is said of it.
use front_plants::{Plant, PlantFault, PlantPort};
use front_ports::{Dial, Door};
use serve_command::{Ran, Serve, status_of};
use serve_config::ServeWords;
use serve_report::ended_text;
use serve_runs::{Ended, RunStatus};
use serve_start::{Ending, address_text, port_fault, shortage, target, threads_of};
use std::alloc::Global;
use std::io;
use system_errors::{reason_of, reason_of_number};
use tcp_plant::{SinkCounts, TcpGate};

// What a call of the plant would have opened, as the words say it.
fn place_of(alloc: Global, words: &ServeWords, port: PlantPort) -> Option<String> {
    let (log, hook) = (target(&words.log), target(&words.webhook));
    match port {
        PlantPort::Door => address_text(alloc, words.listen),
        PlantPort::Dial => String::from_str(alloc, "links to backends").ok(),
        PlantPort::Log => format!(in alloc; "--audit-log-path={log}").ok(),
        PlantPort::Hook => format!(in alloc; "--audit-webhook-url={hook}").ok(),
    }
}

// What the plant could not open, with the system's reason.
fn why_unopened(alloc: Global, words: &ServeWords, fault: PlantFault) -> Option<String> {
    let reason = reason_of_number(fault.errno).unwrap_or("could not be opened");
    match place_of(alloc, words, fault.port) {
        Some(place) => format!(in alloc; "{}: {reason}", place.as_str()).ok(),
        None => None,
    }
}

fn ending_by(alloc: Global, words: &ServeWords, status: RunStatus) -> Ending {
    let why = match status {
        RunStatus::Unopened(fault) => why_unopened(alloc, words, fault),
        _ => None,
    };
    Ending {
        status: status_of(status),
        why,
    }
}

// What is known of a run that ended.
#[derive(Drop)]
struct Left {
    status: RunStatus,
    // What it came to, in words, where anything ran.
    text: Option<String>,
    // Whether the changes of the table were counted, where anything ran.
    counted: bool,
}

// What is known of a run of which this is left, whose sinks counted so.
fn left_of<R: Drop, L: Drop, W: Drop, H: Drop, K: Drop, Y: Drop, D: Drop>(
    alloc: Global,
    words: &ServeWords,
    ended: Ended<R, L, W, H, K, Y, D>,
    counted: bool,
    log: SinkCounts,
    hook: SinkCounts,
) -> Left {
    let none = ended.bays.is_empty();
    let text = if none {
        None
    } else {
        ended_text(alloc, words, &ended, log, hook).ok()
    };
    Left {
        status: ended.status,
        text,
        counted: none || counted,
    }
}

// How a run ended of which this is known. Says what it came to, where anything ran.
fn ending_of(host: &HostRuntime, words: &ServeWords, gate: &TcpGate, left: &Left) -> Ending {
    let alloc = host.alloc();
    if let Some(errno) = gate.open_fault() {
        let port = PlantPort::Door;
        return port_fault(why_unopened(alloc, words, PlantFault { port, errno }));
    }
    if let Some(why) = shortage(alloc, gate, threads_of(words)) {
        return port_fault(Some(why));
    }
    if let Some(text) = &left.text {
        let text = text.as_str();
        let _ = eprint!(host; "{text}");
    }
    if !left.counted {
        let _ = eprintln!(host; "apiaggd: changes of the table: could not be counted");
    }
    ending_by(alloc, words, left.status)
}

/// How a run ends for which the system gave no chance to begin audit IDs with.
pub fn no_boot_word(alloc: Global, error: &io::Error) -> Ending {
    let reason = reason_of(error);
    port_fault(format!(in alloc; "random numbers: {reason}").ok())
}

/// Runs what words and files ask for over a plant of this gate, says what it came to, and gives how it ended.
pub fn run_over<P: Plant + Send>(
    host: &HostRuntime,
    rt: &P::Rt,
    serve: Serve,
    gate: &TcpGate,
    plant: &mut P,
) -> Ending
where
    P::Rt: Send + Sync,
    P::D: Send,
    <P::D as Door>::C: Send,
    P::L: Send,
    <P::L as Dial>::K: Send,
    P::K: Send,
    P::Y: Send,
    P::W: Send,
    P::H: Send,
{
    let (alloc, at) = (host.alloc(), gate.address());
    let Ran {
        words,
        ended,
        counted,
    } = serve.run(rt, alloc, at, plant);
    let left = left_of(
        alloc,
        &words,
        ended,
        counted,
        gate.log().counts(),
        gate.hook().counts(),
    );
    ending_of(host, &words, gate, &left)
}
