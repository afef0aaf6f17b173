ghost use Rattle.std.specs.Prelude.{◌≡◌, ◌≤◌, ◌||◌, Some, IfErr, IfOk, OnErr, OnOk, map, option_map, string_bytes};
ghost use Rattle.front_ports.specs.Cause.{Rose};
ghost use Rattle.front_ports.specs.FileMap.{KeepsFiles};
ghost use Rattle.front_ports.specs.Told.{Adds};
ghost use Rattle.command_ends.specs.Ports.{files_port, port};
ghost use Rattle.resource_fetch.specs.Fetched.{listed_in};
ghost use Rattle.resources_command.specs.Notes.{is_listed, note_of};
ghost use Rattle.resources_command.specs.Order.{asked_by, asked_of, name_of};
ghost use Rattle.resources_command.specs.Run as spec;
ghost use Rattle.service_calls.specs.Calls.{dial_state};
ghost use Rattle.service_endpoints.specs.Find.{endpoint_of};

use crate::config::configure_resources;
use crate::ended::ResourcesEnded;
use crate::group_versions::{GroupVersion, order};
use crate::notes::Notes;
use crate::settings::Settings;
use apiservice_rows::{Row, ServiceRef};
use command_ends::Status;
use front_base::{Address, Bytes, NoMemory};
use front_ports::{ByteSink, Dial, Files, write_all};
use group_resources::merged_line;
use refusal_text::Refusal;
use resource_fetch::{Listing, fetch, group_version};
use service_endpoints::Endpoints;
use std::alloc::Global;

// Why a line was not written.
#[derive(Clone, Copy, Debug, PartialEq, Eq)]
pub enum LineStop {
    WriteFault,
    NoMemory,
}

fn status_of(stop: LineStop) -> Status
    ensures { result ≡ spec.status_of stop }
{
    match stop {
        LineStop::WriteFault => Status::WriteFault,
        LineStop::NoMemory => Status::NoMemory,
    }
}

fn why_of(status: Status) -> Option<Refusal>
    ensures { result ≡ spec.why_of status }
{
    match status {
        Status::WriteFault => Some(Refusal::Output),
        _ => None,
    }
}

// Where a service is reached, or without one the delegate.
fn address_of(endpoints: &Endpoints, service: &Option<ServiceRef>) -> Option<Address>
    ensures { result ≡ endpoint_of endpoints.now service.now }
{
    match service {
        Some(service) => endpoints.of(Some(service)),
        None => endpoints.of(None),
    }
}

// Asks the server of a row, where it is available and has an address.
fn fetch_row<D: Dial>(
    alloc: Global,
    dial: &mut D,
    endpoints: &Endpoints,
    row: &Row,
) -> Result<Listing, NoMemory>
    ensures ok { IfOk result (spec.FetchesIf (asked_by endpoints.now (Some row.now))
        (dial_state (D.calls dial.old) (D.faults dial.old) (D.link_faults dial.old))
        (dial_state (D.calls dial.new) (D.faults dial.new) (D.link_faults dial.new))) }
    ensures err { OnErr result (spec.StopsIf (asked_by endpoints.now (Some row.now))
        (dial_state (D.calls dial.old) (D.faults dial.old) (D.link_faults dial.old))
        (dial_state (D.calls dial.new) (D.faults dial.new) (D.link_faults dial.new))) }
    ensures later { (D.faults dial.old ≤ D.faults dial.new) × (D.link_faults dial.old ≤ D.link_faults dial.new) }
{
    if !row.available {
        return Ok(Listing::NotAsked);
    }
    match address_of(endpoints, &row.service) {
        Some(to) => fetch(alloc, dial, row, to),
        None => Ok(Listing::NotAsked),
    }
}

// Asks the server of a group version.
fn fetch_one<D: Dial>(
    alloc: Global,
    dial: &mut D,
    settings: &Settings,
    own: &GroupVersion,
) -> Result<Listing, NoMemory>
    ensures ok { IfOk result (spec.FetchesIf (asked_of settings.now.table.rows settings.now.endpoints own.now)
        (dial_state (D.calls dial.old) (D.faults dial.old) (D.link_faults dial.old))
        (dial_state (D.calls dial.new) (D.faults dial.new) (D.link_faults dial.new))) }
    ensures err { OnErr result (spec.StopsIf (asked_of settings.now.table.rows settings.now.endpoints own.now)
        (dial_state (D.calls dial.old) (D.faults dial.old) (D.link_faults dial.old))
        (dial_state (D.calls dial.new) (D.faults dial.new) (D.link_faults dial.new))) }
    ensures later { (D.faults dial.old ≤ D.faults dial.new) × (D.link_faults dial.old ≤ D.link_faults dial.new) }
{
    match settings
        .table
        .find(own.group.as_str(), own.version.as_str())
    {
        Some(row) => fetch_row(alloc, dial, &settings.endpoints, row),
        None => Ok(Listing::NotAsked),
    }
}

// The array that was listed.
fn listed_in(got: &Listing) -> Option<&[u8]>
    ensures { option_map (λ list. list.now) result ≡ listed_in got.now }
{
    match got {
        Listing::Listed(list) => Some(list.as_slice()),
        _ => None,
    }
}

// The line of a group version of which this came.
fn line_for(
    alloc: Global,
    settings: &Settings,
    own: &GroupVersion,
    name: &str,
    got: &Listing,
) -> Result<Bytes, NoMemory>
    requires { name.now ≡ name_of own.now }
    ensures { IfOk result (λ line. line ≡ spec.line_for settings.now own.now got.now) }
{
    merged_line(alloc, name, listed_in(got), &settings.previous)
}

// Notes why a group version was not listed, if it wasn't, and says whether it was.
fn note_if<N: Notes>(notes: &mut N, own: &GroupVersion, name: &str, got: &Listing) -> bool
    requires { name.now ≡ name_of own.now }
    ensures noted { Adds (N.noted notes.old) (N.noted notes.new) (note_of own.now got.now) }
    ensures listed { is_listed got.now ≡ result }
{
    match got {
        Listing::Listed(_) => true,
        got => {
            notes.note(name, got);
            false
        }
    }
}

// Asks for one group version, writes its line, and says whether it was listed.
fn write_one<D: Dial, O: ByteSink, N: Notes>(
    alloc: Global,
    dial: &mut D,
    out: &mut O,
    notes: &mut N,
    settings: &Settings,
    own: &GroupVersion,
) -> Result<bool, LineStop>
    ensures ok { IfOk result (spec.WritesOne settings.now own.now
        (dial_state (D.calls dial.old) (D.faults dial.old) (D.link_faults dial.old))
        (dial_state (D.calls dial.new) (D.faults dial.new) (D.link_faults dial.new))
        (O.written out.old) (O.written out.new) (N.noted notes.old) (N.noted notes.new)) }
    ensures err { IfErr result (spec.NotWritten settings.now own.now
        (dial_state (D.calls dial.old) (D.faults dial.old) (D.link_faults dial.old))
        (dial_state (D.calls dial.new) (D.faults dial.new) (D.link_faults dial.new))
        (O.written out.old) (O.written out.new) (Rose (O.write_faults out.old) (O.write_faults out.new))) }
    ensures sound { OnOk result (O.write_faults out.new ≡ O.write_faults out.old) }
    ensures later { O.write_faults out.old ≤ O.write_faults out.new }
    ensures dial_later { (D.faults dial.old ≤ D.faults dial.new) × (D.link_faults dial.old ≤ D.link_faults dial.new) }
{
    let Ok(got) = fetch_one(alloc, dial, settings, own) else {
        return Err(LineStop::NoMemory);
    };
    let Ok(name) = group_version(alloc, own.group.as_str(), own.version.as_str()) else {
        return Err(LineStop::NoMemory);
    };
    let Ok(line) = line_for(alloc, settings, own, name.as_str(), &got) else {
        return Err(LineStop::NoMemory);
    };
    match write_all(out, line.as_slice()) {
        Ok(()) => Ok(note_if(notes, own, name.as_str(), &got)),
        Err(_) => Err(LineStop::WriteFault),
    }
}

fn either(a: bool, b: bool) -> bool
    ensures { result ≡ (a || b) }
{
    if a { true } else { b }
}

// How a run ends that wrote all lines.
fn end_of(listed: bool) -> Status
    ensures { result ≡ spec.end_of listed }
{
    if listed {
        Status::Done
    } else {
        Status::NothingListed
    }
}

// Asks for these group versions one after another, and writes each line as soon as it is known.
fn write_lines<D: Dial, O: ByteSink, N: Notes>(
    alloc: Global,
    dial: &mut D,
    out: &mut O,
    notes: &mut N,
    settings: &Settings,
    all: &[GroupVersion],
) -> Status
    ensures merges { spec.MergesTo settings.now all.now
        (dial_state (D.calls dial.old) (D.faults dial.old) (D.link_faults dial.old))
        (dial_state (D.calls dial.new) (D.faults dial.new) (D.link_faults dial.new))
        (port (O.written out.old) (O.write_faults out.old) (O.written out.new) (O.write_faults out.new))
        (record { before = N.noted notes.old; after = N.noted notes.new }) result }
    ensures later { O.write_faults out.old ≤ O.write_faults out.new }
    ensures dial_later { (D.faults dial.old ≤ D.faults dial.new) × (D.link_faults dial.old ≤ D.link_faults dial.new) }
{
    let mut listed = false;
    for own in all {
        match write_one(alloc, dial, out, notes, settings, own) {
            Ok(one) => listed = either(listed, one),
            Err(stop) => return status_of(stop),
        }
    }
    end_of(listed)
}

fn merge<D: Dial, O: ByteSink, N: Notes>(
    alloc: Global,
    dial: &mut D,
    out: &mut O,
    notes: &mut N,
    settings: &Settings,
) -> Status
    ensures merges { spec.MergesTo settings.now (spec.order settings.now)
        (dial_state (D.calls dial.old) (D.faults dial.old) (D.link_faults dial.old))
        (dial_state (D.calls dial.new) (D.faults dial.new) (D.link_faults dial.new))
        (port (O.written out.old) (O.write_faults out.old) (O.written out.new) (O.write_faults out.new))
        (record { before = N.noted notes.old; after = N.noted notes.new }) result }
    ensures later { O.write_faults out.old ≤ O.write_faults out.new }
    ensures dial_later { (D.faults dial.old ≤ D.faults dial.new) × (D.link_faults dial.old ≤ D.link_faults dial.new) }
{
    match order(alloc, &settings.table) {
        Ok(all) => write_lines(alloc, dial, out, notes, settings, all.as_slice()),
        Err(NoMemory) => Status::NoMemory,
    }
}

/// The command `resources`: asks the servers of all APIs for their lists of resources, and writes one line for each group version, in the
/// order of discovery.
///
/// The status is `Done` where all lines were written and one of them is fresh, and `NothingListed` where none is. Each line that is stale or
/// missing is noted with its reason, once it is written. `Usage`, `Configuration`, `ReadFault` and `NoMemory` before any is asked are those of
/// `explain`; `Configuration` and `ReadFault` stand also where the earlier document is refused or not read, which comes after the other
/// files. With `WriteFault`, and where memory ran out later, a prefix of the lines was written. A server that is not reached, or whose reply
/// lists nothing, is no fault.
pub fn run_resources<F: Files, D: Dial, O: ByteSink, N: Notes>(
    alloc: Global,
    words: &Vec<String>,
    files: &mut F,
    dial: &mut D,
    out: &mut O,
    notes: &mut N,
) -> ResourcesEnded
    ensures run { spec.Run (map string_bytes words.now.items)
        (files_port (F.files files.old) (F.failed files.old) (F.faults files.old)
        (F.files files.new) (F.failed files.new) (F.faults files.new))
        (dial_state (D.calls dial.old) (D.faults dial.old) (D.link_faults dial.old))
        (dial_state (D.calls dial.new) (D.faults dial.new) (D.link_faults dial.new))
        (port (O.written out.old) (O.write_faults out.old) (O.written out.new) (O.write_faults out.new))
        (record { before = N.noted notes.old; after = N.noted notes.new })
        result.status result.why result.previous }

    // Told files stay, and the counts of faults don't fall.
    ensures kept { KeepsFiles (F.files files.old) (F.files files.new) }
    ensures files_later { F.faults files.old ≤ F.faults files.new }
    ensures write_later { O.write_faults out.old ≤ O.write_faults out.new }
    ensures dial_later { (D.faults dial.old ≤ D.faults dial.new) × (D.link_faults dial.old ≤ D.link_faults dial.new) }
{
    match configure_resources(alloc, words, files) {
        Ok(settings) => {
            let status = merge(alloc, dial, out, notes, &settings);
            drop(settings);
            ResourcesEnded {
                status,
                why: why_of(status),
                previous: None,
            }
        }
        Err(ended) => ended,
    }
}
