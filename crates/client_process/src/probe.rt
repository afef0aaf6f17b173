// The command `probe`. Its top call is `probe_command::run_probe`.
use crate::going::InputGoing;
use crate::token_files::TokenFiles;
use client_dial::{ClientDial, LastError};
use command_ends::{Ended, Status, SystemFiles, WriterSink};
use explain_command::finish_told;
use front_base::Address;
use probe_command::{ListFault, ProbeEnded, ProbeWords, list_fault_text, read_probe, run_probe};
use std::net::{Net, TcpStream};
use std::process::ExitCode;
use std::rt;
use std::thread::Threads;
use system_errors::reason_of_number;
use tcp_plant::SystemClock;
use warned_files::WarnedFiles;

// What is known of the words before their files are read.
#[derive(Clone, Copy, Drop)]
struct Given {
    // How long one request may take, in milliseconds.
    request_timeout: u64,
    front: Address,
    // Whether an end of standard input ends the rounds.
    is_watched: bool,
}

fn given_of(words: &ProbeWords) -> Given {
    let is_read = match &words.token_file {
        Some(name) => name.as_str() == "-",
        None => false,
    };
    Given {
        request_timeout: words.request_timeout,
        front: words.front,
        is_watched: words.every > 0 && !is_read,
    }
}

// Words that are refused ask for nothing: `run_probe` refuses them before it dials.
fn given_by(host: &HostRuntime, words: &Vec<String>) -> Given {
    match read_probe(host.alloc(), words) {
        Ok(own) => given_of(&own),
        Err(_) => Given {
            request_timeout: 0,
            front: Address {
                ip: [127, 0, 0, 1],
                port: 8001,
            },
            is_watched: false,
        },
    }
}

// Says why the front door gave no list, if it gave none.
fn say_unlisted(host: &HostRuntime, front: Address, fault: Option<ListFault>, last: &LastError) {
    if let Some(fault) = fault {
        let reason = reason_of_number(last.number());
        if let Ok(text) = list_fault_text(host.alloc(), front, fault, reason) {
            let text = text.as_str();
            let _ = eprint!(host; "{text}");
        }
    }
}

fn probed_by<R: Net<Stream = TcpStream> + rt::Clock>(
    host: &HostRuntime,
    rt: &R,
    words: &Vec<String>,
    given: Given,
    going: &mut InputGoing,
) -> ExitCode {
    let mut files = WarnedFiles::new(host, words.as_slice(), SystemFiles::new(host));
    let mut tokens = TokenFiles::new(host);
    let last = LastError::new();
    let mut dial = ClientDial::new(rt, &last, given.request_timeout);
    let mut clock = SystemClock::new(rt);
    let mut out = WriterSink::new(host.stdout());
    let ProbeEnded {
        status,
        why,
        unlisted,
    } = run_probe(
        host.alloc(),
        words,
        &mut files,
        &mut tokens,
        &mut dial,
        &mut clock,
        going,
        &mut out,
    );
    let ended = Ended::of(status, why);
    let read_reason = match tokens.reason() {
        Some(reason) => Some(reason),
        None => files.files().reason(),
    };
    let reason = ended.reason(read_reason, tokens.reason(), out.reason());
    let code = finish_told(host, words.as_slice(), &ended, reason);
    say_unlisted(host, given.front, unlisted, &last);
    code
}

/// Probes the services that the words name, tells the front door, says how it ended, and gives the status of the program. A warning says
/// what nobody reads of the files. With `--every` an end of standard input ends the rounds, unless the token is read from there.
pub fn probed<R: Net<Stream = TcpStream> + rt::Clock + Threads>(
    host: &HostRuntime,
    rt: &R,
    words: &Vec<String>,
) -> ExitCode {
    let given = given_by(host, words);
    if !given.is_watched {
        return probed_by(host, rt, words, given, &mut InputGoing::always());
    }
    match InputGoing::by_input(*host, rt) {
        Some(mut going) => probed_by(host, rt, words, given, &mut going),
        None => finish_told(
            host,
            words.as_slice(),
            &Ended::of(Status::PortFault, None),
            None,
        ),
    }
}
