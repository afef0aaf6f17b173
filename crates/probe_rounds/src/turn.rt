// A row's turn in a round.
ghost use Rattle.std.specs.Prelude.{◌≡◌, ◌<◌, Some, IfErr, IfOk, OnErr, OnOk, length};
ghost use Rattle.probe_rounds.specs.Rounds as spec;
ghost use Rattle.probe_rounds.specs.Standing.{Breaks, Goes, Probes, StopsAsking, StopsProbing, out_tells, stand};
ghost use Rattle.service_calls.specs.Calls.{DialState, dial_state};
ghost use Rattle.service_calls.specs.Contacts.{Asks};

use crate::line::write_line;
use crate::plan::ProbePlan;
use crate::round::Round;
use crate::stop::ProbeStop;
use apiservice_rows::Row;
use avail_probe::Watcher;
use front_base::{Address, NoMemory};
use front_ports::{ByteSink, Dial};
use probe_calls::patch_request;
use service_calls::{ask, is_good, list_request};
use std::alloc::Global;

// Asks a service at that address, and says whether its probe is good.
fn probe_at<D: Dial>(
    alloc: Global,
    row: &Row,
    address: Address,
    dial: &mut D,
) -> Result<bool, NoMemory>
    ensures ok { IfOk result (λ good. Probes row.now (Some address) good
        (dial_state (D.calls dial.old) (D.faults dial.old) (D.link_faults dial.old))
        (dial_state (D.calls dial.new) (D.faults dial.new) (D.link_faults dial.new))) }
    ensures err { OnErr result (StopsAsking (spec.list_due row.now address)
        (dial_state (D.calls dial.old) (D.faults dial.old) (D.link_faults dial.old))
        (dial_state (D.calls dial.new) (D.faults dial.new) (D.link_faults dial.new))) }
{
    match list_request(alloc, row, &address) {
        Ok(request) => match ask(alloc, dial, address, request.as_slice()) {
            Ok(answer) => Ok(is_good(answer)),
            Err(NoMemory) => Err(NoMemory),
        },
        Err(NoMemory) => Err(NoMemory),
    }
}

// The same where it is reached at an address. A probe of one that isn't is bad.
fn probe<D: Dial>(
    alloc: Global,
    row: &Row,
    address: Option<Address>,
    dial: &mut D,
) -> Result<bool, NoMemory>
    ensures ok { IfOk result (λ good. Probes row.now address good
        (dial_state (D.calls dial.old) (D.faults dial.old) (D.link_faults dial.old))
        (dial_state (D.calls dial.new) (D.faults dial.new) (D.link_faults dial.new))) }
    ensures err { OnErr result (StopsProbing row.now address
        (dial_state (D.calls dial.old) (D.faults dial.old) (D.link_faults dial.old))
        (dial_state (D.calls dial.new) (D.faults dial.new) (D.link_faults dial.new))) }
{
    match address {
        Some(address) => probe_at(alloc, row, address, dial),
        None => Ok(false),
    }
}

// Tells the front door of a row's condition, and what it answers.
fn put<D: Dial>(
    alloc: Global,
    plan: &ProbePlan,
    round: &Round,
    row: &Row,
    up: bool,
    dial: &mut D,
) -> Result<Option<u16>, NoMemory>
    ensures ok { IfOk result (λ answer. Asks (spec.put_due plan.now round.now row.now up) answer
        (dial_state (D.calls dial.old) (D.faults dial.old) (D.link_faults dial.old))
        (dial_state (D.calls dial.new) (D.faults dial.new) (D.link_faults dial.new))) }
    ensures err { OnErr result (StopsAsking (spec.put_due plan.now round.now row.now up)
        (dial_state (D.calls dial.old) (D.faults dial.old) (D.link_faults dial.old))
        (dial_state (D.calls dial.new) (D.faults dial.new) (D.link_faults dial.new))) }
{
    let moment = round.moment;
    match patch_request(alloc, plan.front, &plan.token, row, up, moment) {
        Ok(request) => match ask(alloc, dial, plan.front, request.as_slice()) {
            Ok(answer) => Ok(answer),
            Err(NoMemory) => Err(NoMemory),
        },
        Err(NoMemory) => Err(NoMemory),
    }
}

// The row has the condition that the front door took, or was refused.
fn take(watcher: &mut Watcher, at: u32, up: bool, answer: Option<u16>)
    requires { at < length watcher.old.rows }
    ensures rows { watcher.new.rows ≡ spec.rows_after (spec.is_taken answer) at up watcher.old.rows }
    ensures threshold { watcher.new.threshold ≡ watcher.old.threshold }
    ensures length { length watcher.new.rows ≡ length watcher.old.rows }
{
    if let Some(200) = answer {
        watcher.set(at, up);
    } else {
        watcher.refuse(at);
    }
}

// Writes what the front door answered, and takes it.
fn note<O: ByteSink>(
    alloc: Global,
    round: &Round,
    at: u32,
    row: &Row,
    up: bool,
    answer: Option<u16>,
    watcher: &mut Watcher,
    out: &mut O,
) -> Result<(), ProbeStop>
    requires { at < length watcher.old.rows }
    ensures ok { OnOk result ((d : DialState) → Goes (spec.told round.now at row.now up answer)
        (stand watcher.old.rows d (out_tells (O.written out.old) (O.write_faults out.old)))
        (stand watcher.new.rows d (out_tells (O.written out.new) (O.write_faults out.new)))) }
    ensures err { IfErr result (λ stop. (d : DialState) → Breaks (spec.told round.now at row.now up answer)
        (stand watcher.old.rows d (out_tells (O.written out.old) (O.write_faults out.old))) stop d
        (out_tells (O.written out.new) (O.write_faults out.new))) }
    ensures threshold { watcher.new.threshold ≡ watcher.old.threshold }
    ensures length { length watcher.new.rows ≡ length watcher.old.rows }
{
    let number = round.number;
    match write_line(alloc, number, row.name.as_str(), up, answer, out) {
        Ok(()) => {
            take(watcher, at, up, answer);
            Ok(())
        }
        Err(stop) => Err(stop),
    }
}

// Tells the front door, and writes what it answered.
fn tell<D: Dial, O: ByteSink>(
    alloc: Global,
    plan: &ProbePlan,
    round: &Round,
    at: u32,
    row: &Row,
    up: bool,
    watcher: &mut Watcher,
    dial: &mut D,
    out: &mut O,
) -> Result<(), ProbeStop>
    requires { at < length watcher.old.rows }
    ensures ok { OnOk result (Goes (spec.tells plan.now round.now at row.now up)
        (stand watcher.old.rows (dial_state (D.calls dial.old) (D.faults dial.old) (D.link_faults dial.old))
        (out_tells (O.written out.old) (O.write_faults out.old)))
        (stand watcher.new.rows (dial_state (D.calls dial.new) (D.faults dial.new) (D.link_faults dial.new))
        (out_tells (O.written out.new) (O.write_faults out.new)))) }
    ensures err { IfErr result (λ stop. Breaks (spec.tells plan.now round.now at row.now up)
        (stand watcher.old.rows (dial_state (D.calls dial.old) (D.faults dial.old) (D.link_faults dial.old))
        (out_tells (O.written out.old) (O.write_faults out.old))) stop
        (dial_state (D.calls dial.new) (D.faults dial.new) (D.link_faults dial.new))
        (out_tells (O.written out.new) (O.write_faults out.new))) }
    ensures threshold { watcher.new.threshold ≡ watcher.old.threshold }
    ensures length { length watcher.new.rows ≡ length watcher.old.rows }
{
    match put(alloc, plan, round, row, up, dial) {
        Ok(answer) => match note(alloc, round, at, row, up, answer, watcher, out) {
            Ok(()) => Ok(()),
            Err(stop) => Err(stop),
        },
        Err(NoMemory) => Err(ProbeStop::NoMemory),
    }
}

// Keeps a probe, and tells the front door where the condition is to change.
fn judge<D: Dial, O: ByteSink>(
    alloc: Global,
    plan: &ProbePlan,
    round: &Round,
    at: u32,
    row: &Row,
    good: bool,
    watcher: &mut Watcher,
    dial: &mut D,
    out: &mut O,
) -> Result<(), ProbeStop>
    requires inside { at < length watcher.old.rows }
    requires threshold { watcher.old.threshold ≡ plan.now.threshold }
    ensures ok { OnOk result (Goes (spec.judged plan.now round.now at row.now good)
        (stand watcher.old.rows (dial_state (D.calls dial.old) (D.faults dial.old) (D.link_faults dial.old))
        (out_tells (O.written out.old) (O.write_faults out.old)))
        (stand watcher.new.rows (dial_state (D.calls dial.new) (D.faults dial.new) (D.link_faults dial.new))
        (out_tells (O.written out.new) (O.write_faults out.new)))) }
    ensures err { IfErr result (λ stop. Breaks (spec.judged plan.now round.now at row.now good)
        (stand watcher.old.rows (dial_state (D.calls dial.old) (D.faults dial.old) (D.link_faults dial.old))
        (out_tells (O.written out.old) (O.write_faults out.old))) stop
        (dial_state (D.calls dial.new) (D.faults dial.new) (D.link_faults dial.new))
        (out_tells (O.written out.new) (O.write_faults out.new))) }
    ensures threshold { watcher.new.threshold ≡ watcher.old.threshold }
    ensures length { length watcher.new.rows ≡ length watcher.old.rows }
{
    match watcher.probed(at, good) {
        Some(up) => match tell(alloc, plan, round, at, row, up, watcher, dial, out) {
            Ok(()) => Ok(()),
            Err(stop) => Err(stop),
        },
        None => Ok(()),
    }
}

// The turn of a row with a service that is reached there, or nowhere.
fn ask_and_judge<D: Dial, O: ByteSink>(
    alloc: Global,
    plan: &ProbePlan,
    round: &Round,
    at: u32,
    row: &Row,
    address: Option<Address>,
    watcher: &mut Watcher,
    dial: &mut D,
    out: &mut O,
) -> Result<(), ProbeStop>
    requires inside { at < length watcher.old.rows }
    requires threshold { watcher.old.threshold ≡ plan.now.threshold }
    ensures ok { OnOk result (Goes (spec.asks plan.now round.now at row.now address)
        (stand watcher.old.rows (dial_state (D.calls dial.old) (D.faults dial.old) (D.link_faults dial.old))
        (out_tells (O.written out.old) (O.write_faults out.old)))
        (stand watcher.new.rows (dial_state (D.calls dial.new) (D.faults dial.new) (D.link_faults dial.new))
        (out_tells (O.written out.new) (O.write_faults out.new)))) }
    ensures err { IfErr result (λ stop. Breaks (spec.asks plan.now round.now at row.now address)
        (stand watcher.old.rows (dial_state (D.calls dial.old) (D.faults dial.old) (D.link_faults dial.old))
        (out_tells (O.written out.old) (O.write_faults out.old))) stop
        (dial_state (D.calls dial.new) (D.faults dial.new) (D.link_faults dial.new))
        (out_tells (O.written out.new) (O.write_faults out.new))) }
    ensures threshold { watcher.new.threshold ≡ watcher.old.threshold }
    ensures length { length watcher.new.rows ≡ length watcher.old.rows }
{
    match probe(alloc, row, address, dial) {
        Ok(good) => match judge(alloc, plan, round, at, row, good, watcher, dial, out) {
            Ok(()) => Ok(()),
            Err(stop) => Err(stop),
        },
        Err(NoMemory) => Err(ProbeStop::NoMemory),
    }
}

/// The turn of the row at that place, counted from 0, in the round of that number. A row without a service has none.
pub fn turn<D: Dial, O: ByteSink>(
    alloc: Global,
    plan: &ProbePlan,
    round: &Round,
    at: u32,
    row: &Row,
    watcher: &mut Watcher,
    dial: &mut D,
    out: &mut O,
) -> Result<(), ProbeStop>
    requires inside { at < length watcher.old.rows }
    requires threshold { watcher.old.threshold ≡ plan.now.threshold }
    ensures ok { OnOk result (Goes (spec.turn plan.now round.now at row.now)
        (stand watcher.old.rows (dial_state (D.calls dial.old) (D.faults dial.old) (D.link_faults dial.old))
        (out_tells (O.written out.old) (O.write_faults out.old)))
        (stand watcher.new.rows (dial_state (D.calls dial.new) (D.faults dial.new) (D.link_faults dial.new))
        (out_tells (O.written out.new) (O.write_faults out.new)))) }
    ensures err { IfErr result (λ stop. Breaks (spec.turn plan.now round.now at row.now)
        (stand watcher.old.rows (dial_state (D.calls dial.old) (D.faults dial.old) (D.link_faults dial.old))
        (out_tells (O.written out.old) (O.write_faults out.old))) stop
        (dial_state (D.calls dial.new) (D.faults dial.new) (D.link_faults dial.new))
        (out_tells (O.written out.new) (O.write_faults out.new))) }
    ensures threshold { watcher.new.threshold ≡ watcher.old.threshold }
    ensures length { length watcher.new.rows ≡ length watcher.old.rows }
{
    match &row.service {
        Some(service) => {
            let address = plan.endpoints.of(Some(service));
            match ask_and_judge(alloc, plan, round, at, row, address, watcher, dial, out) {
                Ok(()) => Ok(()),
                Err(stop) => Err(stop),
            }
        }
        None => Ok(()),
    }
}
