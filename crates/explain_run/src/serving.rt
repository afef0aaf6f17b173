// A run over the requests of an input, one after another.
ghost use Rattle.std.specs.Prelude.{◌≡◌, ◌≤◌, OnErr, OnOk};
ghost use Rattle.apiservice_table.specs.Changes.{rows_of};
ghost use Rattle.front_ports.specs.Cause.{HasCause};
ghost use Rattle.front_ports.specs.Written.{AppendsFront};
ghost use Rattle.command_ends.specs.Ports.{port};
ghost use Rattle.explain_run.specs.Serving as spec;

use crate::lines::add_lines;
use crate::setup::Setup;
use apiservice_table::TableRoutes;
use command_ends::Status;
use front_base::MOST_REQUESTS;
use front_ports::{ByteSink, PortFault, Source, write_all};
use http_edge::{Edge, End, Stop, asks, requests_stay};
use local_replies::LocalPaths;
use std::alloc::Global;

// Lines are gathered until they have so many bytes, and written together.
const WRITE_BYTES: usize = 65_536;

fn status_of(end: End) -> Status
    ensures { result ≡ spec.status_of end }
{
    match end {
        End::Ended => Status::Done,
        End::Asked => Status::Done,
        End::BadHead => Status::Input,
        End::HeadTooLarge => Status::Input,
        End::BadFraming => Status::Input,
        End::BodyTooLarge => Status::Input,
        End::CutShort => Status::Input,
    }
}

fn status_of_stop(stop: Stop) -> Status
    ensures { result ≡ spec.status_of_stop stop }
{
    match stop {
        Stop::Refused(end) => status_of(end),
        Stop::ReadFault => Status::ReadFault,
        Stop::NoMemory => Status::NoMemory,
    }
}

// Writes the last lines, and answers how the run ended.
fn close<O: ByteSink>(out: &mut O, pending: &[u8], status: Status) -> Status
    ensures closes { spec.Closes
        (port (O.written out.old) (O.write_faults out.old) (O.written out.new) (O.write_faults out.new))
        pending.now status result }
    ensures later { O.write_faults out.old ≤ O.write_faults out.new }
{
    match write_all(out, pending) {
        Ok(()) => status,
        Err(_) => Status::WriteFault,
    }
}

// Writes the lines where they have come to many.
fn spill<O: ByteSink>(out: &mut O, pending: &mut Vec<u8>) -> Result<(), PortFault>
    ensures ok { OnOk result (spec.Spilled (O.written out.old) (O.written out.new) pending.old.items pending.new.items) }
    ensures err { OnErr result (AppendsFront (O.written out.old) (O.written out.new) pending.old.items) }
    ensures cause { HasCause (O.write_faults out.old) (O.write_faults out.new) result }
{
    if pending.len() < WRITE_BYTES {
        return Ok(());
    }
    write_all(out, pending.as_slice())?;
    pending.clear();
    Ok(())
}

/// How far a run over an input came. The first three are for messages, and no clause speaks of them.
#[derive(Clone, Copy, Debug, PartialEq, Eq)]
pub struct Progress {
    /// How many requests came before the one that is read.
    pub served: u64,
    /// How many bytes these took up.
    pub used: u64,
    /// Why no more requests come, once none come.
    pub end: End,
    /// How many events of the requests that were answered are too large for a line.
    pub too_large: u64,
}

impl Progress {
    pub const NONE: Progress = Progress {
        served: 0,
        used: 0,
        end: End::Ended,
        too_large: 0,
    };
}

// Notes why no more requests come.
fn note_end(progress: &mut Progress, stop: Stop)
    ensures { progress.new.too_large ≡ progress.old.too_large }
{
    if let Stop::Refused(end) = stop {
        progress.end = end;
    }
}

/// Writes the lines of each request of the input, up to the end of its list of requests. Requests have the numbers
/// from 0 on, and each is answered by the table as those before it left it. `progress` counts the events that are too large.
pub fn serve_requests<S: Source, O: ByteSink>(
    alloc: Global,
    setup: &Setup,
    paths: &LocalPaths,
    routes: &mut TableRoutes,
    input: &mut S,
    out: &mut O,
    progress: &mut Progress,
) -> Status
    requires { progress.old.too_large ≡ 0 }
    ensures run { spec.Serves setup.now (rows_of routes.old)
        (port (S.left input.old) (S.read_faults input.old) (S.left input.new) (S.read_faults input.new))
        (port (O.written out.old) (O.write_faults out.old) (O.written out.new) (O.write_faults out.new))
        progress.new.too_large result }
    ensures read_later { S.read_faults input.old ≤ S.read_faults input.new }
    ensures write_later { O.write_faults out.old ≤ O.write_faults out.new }
{
    requests_stay();
    let Ok(mut edge) = Edge::new(alloc) else {
        return Status::NoMemory;
    };
    let mut pending = Vec::new(alloc);
    let mut number = 0;
    'serving: loop {
        progress.served = number;
        progress.used = edge.used();
        let request = match edge.next_request(alloc, input) {
            Ok(request) => request,
            Err(stop) => {
                note_end(progress, stop);
                return close(out, pending.as_slice(), status_of_stop(stop));
            }
        };
        if number == MOST_REQUESTS {
            return close(out, pending.as_slice(), Status::NumbersSpent);
        }
        match add_lines(alloc, setup, paths, routes, number, &request, &mut pending) {
            Ok(count) => progress.too_large += count,
            Err(_) => return close(out, pending.as_slice(), Status::NoMemory),
        }
        number += 1;
        if asks(&request) {
            return close(out, pending.as_slice(), Status::Done);
        }
        match spill(out, &mut pending) {
            Ok(()) => {}
            Err(_) => return Status::WriteFault,
        }
    }
}
