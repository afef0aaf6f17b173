// From words to an open address, over this process's sockets, files and threads.
use crate::ending::{Ending, finish, no_memory, port_fault};
use crate::places::{address_text, target};
use crate::start::{Watcher, watch};
use audit_core::Settings;
use command_ends::SystemFiles;
use explain_command::finish_told;
use front_base::Address;
use policy_rules::Policy;
use serve_command::Serve;
use serve_config::ServeWords;
use serve_report::{begun_text, files_warning, size_warning, strict_warnings};
use std::alloc::Global;
use std::io::Read;
use std::net::{Net, TcpListener, TcpStream};
use std::process::ExitCode;
use std::sync::Arc;
use std::thread::Threads;
use std::{io, thread};
use system_errors::reason_of;
use tcp_plant::TcpGate;
use tcp_ports::most_descriptors;
use warned_files::WarnedFiles;

// Closes the gate once the reader ends or fails.
fn close_at_end<I: Read>(input: &mut I, gate: &TcpGate) {
    let mut buf = [0u8; 256];
    for _ in 0..u64::MAX {
        match input.read(&mut buf) {
            Ok(count) if count > 0 => {}
            _ => break,
        }
    }
    gate.close();
}

// Has an end of standard input close the gate. Whether there is a thread for it.
fn watch_input<R: Threads>(host: HostRuntime, rt: &R, gate: Arc<TcpGate>) -> bool {
    thread::spawn(rt, move || close_at_end(&mut host.stdin(), &gate)).is_ok()
}

fn no_thread(alloc: Global) -> Ending {
    port_fault(String::from_str(alloc, "threads: none could be started").ok())
}

fn unopened(alloc: Global, at: Address, error: &io::Error) -> Ending {
    let reason = reason_of(error);
    let why = match address_text(alloc, at) {
        Some(at) => format!(in alloc; "{}: {reason}", at.as_str()).ok(),
        None => None,
    };
    port_fault(why)
}

// The gate of these words, whose sinks notices call by their targets.
fn bind<R: Net<Listener = TcpListener, Stream = TcpStream>>(
    alloc: Global,
    rt: &R,
    words: &ServeWords,
) -> io::Result<Arc<TcpGate>> {
    let log = format!(in alloc; "audit log {}", target(&words.log))?;
    let hook = format!(in alloc; "audit webhook {}", target(&words.webhook))?;
    let gate = TcpGate::bind(
        rt,
        alloc,
        words.listen,
        words.limits,
        words.bays,
        log,
        hook,
        words.reuse_port,
    )?;
    Ok(Arc::new(alloc, gate)?)
}

fn open_gate<R: Net<Listener = TcpListener, Stream = TcpStream>>(
    alloc: Global,
    rt: &R,
    words: &ServeWords,
) -> Result<Arc<TcpGate>, Ending> {
    match bind(alloc, rt, words) {
        Ok(gate) => Ok(gate),
        Err(error) if error.kind() == io::ErrorKind::OutOfMemory => Err(no_memory()),
        Err(error) => Err(unopened(alloc, words.listen, &error)),
    }
}

fn say_warnings(host: &HostRuntime, words: &ServeWords, policy: &Policy) {
    if let Ok(text) = strict_warnings(host.alloc(), words, policy) {
        let text = text.as_str();
        let _ = eprint!(host; "{text}");
    }
}

fn say_sizes(host: &HostRuntime, settings: &Settings) {
    if let Ok(text) = size_warning(host.alloc(), settings) {
        let text = text.as_str();
        let _ = eprint!(host; "{text}");
    }
}

fn say_files(host: &HostRuntime, words: &ServeWords) {
    if let Ok(text) = files_warning(host.alloc(), words, most_descriptors()) {
        let text = text.as_str();
        let _ = eprint!(host; "{text}");
    }
}

// Starts the threads that open and close the gate. Whether they run.
fn watch_gate<R: Threads>(
    host: &HostRuntime,
    rt: &R,
    words: &ServeWords,
    services: usize,
    gate: &Arc<TcpGate>,
) -> Result<Watcher, Ending> {
    let Ok(text) = begun_text(host.alloc(), words, gate.address(), services) else {
        return Err(no_memory());
    };
    let (Ok(opener), Ok(closer)) = (Arc::try_clone(gate), Arc::try_clone(gate)) else {
        return Err(no_memory());
    };
    if words.exit_on_stdin_eof && !watch_input(*host, rt, closer) {
        return Err(no_thread(host.alloc()));
    }
    match watch(*host, rt, words, opener, text) {
        Some(watcher) => Ok(watcher),
        None => Err(no_thread(host.alloc())),
    }
}

/// What a run of `serve` begins with, once its address is open and the threads run that open and close its gate.
#[derive(Drop)]
pub struct Ready {
    pub serve: Serve,
    pub gate: Arc<TcpGate>,
    pub watcher: Watcher,
}

// What a run by this configuration begins with, or why there is none.
fn ready_by<R: Threads + Net<Listener = TcpListener, Stream = TcpStream>>(
    host: &HostRuntime,
    rt: &R,
    serve: Serve,
) -> Result<Ready, Ending> {
    say_warnings(host, serve.words(), &serve.settings().policy);
    say_sizes(host, serve.settings());
    say_files(host, serve.words());
    let gate = open_gate(host.alloc(), rt, serve.words())?;
    let watcher = watch_gate(host, rt, serve.words(), serve.services(), &gate)?;
    Ok(Ready {
        serve,
        gate,
        watcher,
    })
}

/// Reads words and files, and opens the address, or says why it can't and gives the status of the program.
pub fn prepare<R: Threads + Net<Listener = TcpListener, Stream = TcpStream>>(
    host: &HostRuntime,
    rt: &R,
    words: &Vec<String>,
) -> Result<Ready, ExitCode> {
    let mut files = WarnedFiles::new(host, words.as_slice(), SystemFiles::new(host));
    match Serve::configure(host.alloc(), words, &mut files) {
        Ok(serve) => match ready_by(host, rt, serve) {
            Ok(ready) => Ok(ready),
            Err(ending) => Err(finish(host, &ending)),
        },
        Err(outcome) => {
            let ended = command_ends::Ended::of(outcome.status, outcome.why);
            Err(finish_told(host, words.as_slice(), &ended, files.files().reason()))
        }
    }
}
