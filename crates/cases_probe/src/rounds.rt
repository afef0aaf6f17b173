// Rounds of probes.
ghost use Rattle.std.specs.Prelude.{◌≤◌, IfSome};

use crate::objects::object_of;
use crate::peers::peer_of;
use apiservice_rows::read_rows;
use apiservice_table::{RouteTable, read_rows_fit};
use case_rows::{fields, spelled};
use front_base::{Address, MOST_FILE_BYTES, Moment, Text};
use front_ports::{Call, MemBytes, MemClock, MemDial};
use probe_rounds::{GoesFor, ProbePlan, ProbeStop, run_rounds};
use service_endpoints::{Endpoints, read_endpoints};
use std::alloc::{AllocError, Global};

// A list of APIServices, each word of which is a sign and a group.
fn list_of(alloc: Global, words: &str) -> Result<String, AllocError> {
    let mut text = String::from_str(alloc, r#"{"kind":"List","items":["#)?;
    let mut is_first = true;
    for word in words.split(' ') {
        let sign = word.get(..1).unwrap_or("");
        let group = word.get(1..).unwrap_or("");
        let object = object_of(alloc, group, sign)?;
        if !is_first {
            text.push_str(",")?;
        }
        is_first = false;
        text.push_str(object.as_str())?;
    }
    text.push_str("]}")?;
    Ok(text)
}

// The endpoints of the services of these groups, each at a port of its own.
fn endpoints_of(alloc: Global, words: &str) -> Result<String, AllocError> {
    let mut text = String::new(alloc);
    for word in words.split(' ') {
        if word != "-" {
            let line = format!(in alloc; "s/{word}:443,127.0.0.1:900{}\n", word.len())?;
            text.push_str(line.as_str())?;
        }
    }
    Ok(text)
}

fn number(field: &str, place: usize) -> u32 {
    match field.split(' ').nth(place) {
        Some(word) => word.parse().unwrap_or(1),
        None => 1,
    }
}

// A threshold from 1 to 10.
fn threshold(field: &str) -> u8
    ensures { (1 ≤ result) × (result ≤ 10) }
{
    let given = number(field, 1);
    if given == 0 {
        1
    } else if given <= 10 {
        given as u8
    } else {
        10
    }
}

// How many rounds there are, from 1.
fn rounds(field: &str) -> u32
    ensures { 1 ≤ result }
{
    let given = number(field, 0);
    if given == 0 { 1 } else { given }
}

// The number at that place, if there is one.
fn number_or(field: &str, place: usize, other: u32) -> u32 {
    match field.split(' ').nth(place) {
        Some(word) => word.parse().unwrap_or(other),
        None => other,
    }
}

fn token(alloc: Global, field: &str) -> Option<Text> {
    let word = field.split(' ').nth(2)?;
    Text::copy_of(alloc, word).ok()
}

#[derive(Drop)]
struct Shown {
    text: String,
    dial: MemDial,
}

fn table_of(alloc: Global, services: &str) -> Option<RouteTable> {
    let list = list_of(alloc, services).ok()?;
    read_rows_fit();
    let rows = read_rows(alloc, list.as_bytes()).ok()?;
    RouteTable::from_rows(alloc, rows).ok()
}

fn places_of(alloc: Global, places: &str) -> Option<Endpoints> {
    let text = endpoints_of(alloc, places).ok()?;
    if text.len() as u64 > MOST_FILE_BYTES {
        return None;
    }
    read_endpoints(alloc, text.as_bytes()).ok()
}

// The front door is at port 8001 of this machine.
fn plan_of(alloc: Global, places: &str, numbers: &str) -> Option<ProbePlan>
    ensures { IfSome result (λ plan. (1 ≤ plan.threshold) × (plan.threshold ≤ 10) × (1 ≤ plan.rounds)) }
{
    let endpoints = places_of(alloc, places)?;
    Some(ProbePlan {
        endpoints,
        front: Address {
            ip: [127, 0, 0, 1],
            port: 8001,
        },
        token: token(alloc, numbers),
        rounds: rounds(numbers),
        every: number_or(numbers, 3, 0),
        threshold: threshold(numbers),
    })
}

fn word_of(end: Result<bool, ProbeStop>) -> &'static str {
    match end {
        Ok(false) => "done",
        Ok(true) => "refused",
        Err(ProbeStop::WriteFault) => "write fault",
        Err(ProbeStop::NoMemory) => "no memory",
    }
}

fn written_by(
    alloc: Global,
    plan: &ProbePlan,
    numbers: &str,
    table: &RouteTable,
    dial: &mut MemDial,
) -> Option<String>
    requires { (1 ≤ plan.now.threshold) × (plan.now.threshold ≤ 10) × (1 ≤ plan.now.rounds) }
{
    let mut clock = MemClock::new(Moment::epoch(), number_or(numbers, 4, 1) as u64);
    let mut going = GoesFor::new(number_or(numbers, 5, 0) as u64);
    let mut out = MemBytes::new(alloc, 65_536, Vec::new(alloc)).ok()?;
    let word = word_of(run_rounds(
        alloc,
        plan,
        table.rows(),
        dial,
        &mut clock,
        &mut going,
        &mut out,
    ));
    let written = spelled(alloc, out.bytes());
    format!(in alloc; "{word} {written}").ok()
}

fn run_over(
    alloc: Global,
    plan: &ProbePlan,
    numbers: &str,
    table: &RouteTable,
    answers: &str,
) -> Option<Shown>
    requires { (1 ≤ plan.now.threshold) × (plan.now.threshold ≤ 10) × (1 ≤ plan.now.rounds) }
{
    let mut dial = peer_of(alloc, answers).ok()?;
    let text = written_by(alloc, plan, numbers, table, &mut dial)?;
    Some(Shown { text, dial })
}

fn run_by(
    alloc: Global,
    plan: &ProbePlan,
    numbers: &str,
    services: &str,
    answers: &str,
) -> Option<Shown>
    requires { (1 ≤ plan.now.threshold) × (plan.now.threshold ≤ 10) × (1 ≤ plan.now.rounds) }
{
    let table = table_of(alloc, services)?;
    run_over(alloc, plan, numbers, &table, answers)
}

fn run(alloc: Global, row: &str) -> Option<Shown> {
    let (services, rest) = fields(row);
    let (places, rest) = fields(rest);
    let (numbers, answers) = fields(rest);
    let plan = plan_of(alloc, places, numbers)?;
    run_by(alloc, &plan, numbers, services, answers)
}

/// What a run writes.
pub fn show_lines(alloc: Global, row: &str) -> Option<String> {
    let Shown { text, dial: _ } = run(alloc, row)?;
    Some(text)
}

fn call_text(alloc: Global, call: &Call) -> Result<String, AllocError> {
    let port = call.to.port;
    let sent = spelled(alloc, call.sent.as_slice());
    format!(in alloc; " / {port} {sent}")
}

fn push_calls(alloc: Global, text: &mut String, dial: &MemDial) -> Option<()> {
    for call in dial.calls()? {
        let more = call_text(alloc, call).ok()?;
        text.push_str(more.as_str()).ok()?;
    }
    Some(())
}

/// The calls that a run makes.
pub fn show_calls(alloc: Global, row: &str) -> Option<String> {
    let Shown { text, dial } = run(alloc, row)?;
    let mut text = text;
    push_calls(alloc, &mut text, &dial)?;
    Some(text)
}
