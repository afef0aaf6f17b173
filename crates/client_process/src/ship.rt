// The command `ship`. Its top call is `ship_command::run_ship`.
use command_ends::{Ended, ReaderSource, WriterSink};
use explain_command::finish_told;
use log_ship::{ShipEnd, Shipment};
use ship_command::{Shipped, run_ship, told_text};
use ship_plant::{PostShare, ShipPlant};
use std::alloc::{AllocError, Global};
use std::io::{Eprint, IsTerminal};
use std::net::{Net, TcpStream};
use std::process::ExitCode;
use std::rt;
use std::sync::Wait;
use std::thread::Threads;

// What is said of these lines, by what their posts came to.
fn said(alloc: Global, shipment: Shipment, share: &PostShare) -> Result<String, AllocError> {
    match share.why() {
        Some(why) => {
            let why = format!(in alloc; "{why}")?;
            told_text(alloc, shipment, why.as_str())
        }
        None => told_text(alloc, shipment, "the throttle allowed no post"),
    }
}

// Says how a run ended with that status and what became of its lines, and gives the status of the program.
fn finished(
    host: &HostRuntime,
    words: &[String],
    ended: &Ended,
    shipment: Option<Shipment>,
    reason: Option<&str>,
    share: &PostShare,
) -> ExitCode {
    let code = finish_told(host, words, ended, reason);
    if let Some(shipment) = shipment {
        if let Ok(text) = said(host.alloc(), shipment, share) {
            let text = text.as_str();
            let _ = eprint!(host; "{text}");
        }
        let last = share.last_line();
        if shipment.end != ShipEnd::Done && last > 0 {
            let _ = eprintln!(host; "apiaggd: the last line posted is line {last}");
        }
    }
    code
}

/// Posts the lines of standard input to the webhook that the words name, says what became of them, and gives the status of the program. Progress is
/// said at most once a second where standard error is a terminal, and else at most once in ten.
pub fn shipped<R: Threads + Wait + Copy + Drop + Net<Stream = TcpStream> + rt::Clock + Eprint>(
    host: &HostRuntime,
    rt: &R,
    words: &Vec<String>,
) -> ExitCode {
    let share = PostShare::new(host.stderr().is_terminal());
    let mut plant = ShipPlant::new(rt, &share);
    let mut input = ReaderSource::new(host.stdin());
    let mut out = WriterSink::new(host.stdout());
    let Shipped {
        status,
        why,
        shipment,
        sink: _,
        clock: _,
    } = run_ship(host.alloc(), words, &mut plant, &mut input, &mut out);
    let ended = Ended::of(status, why);
    let reason = ended.reason(None, input.reason(), out.reason());
    finished(host, words.as_slice(), &ended, shipment, reason, &share)
}
