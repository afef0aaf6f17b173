//! Connections over ports in memory, over the files of this folder's `data`: what the clients get, what the backends are
//! sent, what the log says and what the diary notes, on standard output, where it is compared byte by byte; and then in which
//! order exchanges call their ports.
#![tactic(auto)]

ghost use Rattle.std.specs.Prelude.{◌≡◌, false, IfSome};
ghost use Rattle.audit_core.specs.declared.sinks.SinkMode.TheVariants.{Off};
ghost use Rattle.event_offers.specs.Lanes.{is_batch};
ghost use Rattle.front_ports.specs.Memory.{IsUnused};
ghost use Rattle.std.specs.List.{All};

mod order;
mod settings;
mod told;

use apiservice_table::TableRoutes;
use audit_core::{Settings, SinkMode};
use event_offers::Lanes;
use front_base::{Bytes, Moment, NoMemory};
use front_ports::{MemBytes, MemClock, MemConn, MemDial, MemLink, Script};
use local_replies::LocalPaths;
use log_sink::LogSink;
use order::show_order;
use session_core::{Bay, ConnEnd, MemDiary, serve_connection};
use settings::{routes_of, settings_of};
use std::alloc::Global;
use std::fs;
use std::process::ExitCode;
use told::exchange_line;
use truncate_backend::{NoNotes, OwnLane};

// How many bytes a port takes.
const ROOM: u64 = 1_000_000;

// The clients' bytes, after a `!` which of their calls fails the second time or after which reply the connection wishes to end, the replies of backends with `~` for CR LF, the APIServices, the policy, and the log of each
// connection.
const RUNS: &str = "\
changes.http|changes.replies|changes.json|policy.json|blocking
mixed.http|mixed.replies|mixed.json|policy.json|blocking
streams.http|streams.replies|mixed.json|all.json|blocking
watch.http|cut.replies|mixed.json|all.json|blocking
list.http|cut.replies|mixed.json|all.json|blocking
list.http|broken.replies|mixed.json|all.json|blocking
list.http|huge.replies|mixed.json|all.json|blocking
list.http|cut.replies|mixed.json|all.json|strict
watches.http|watches.replies|mixed.json|all.json|blocking
old.http|cut.replies|mixed.json|all.json|blocking
list.http|greatest.replies|mixed.json|all.json|blocking
long.http|long.replies|mixed.json|all.json|blocking
bad_head.http|mixed.replies|mixed.json|policy.json|blocking
large_head.http|mixed.replies|mixed.json|policy.json|blocking
bad_framing.http|mixed.replies|mixed.json|policy.json|blocking
large_body.http|mixed.replies|mixed.json|policy.json|blocking
cut_short.http|mixed.replies|mixed.json|policy.json|blocking
cut_short.http!read|mixed.replies|mixed.json|policy.json|blocking
two.http!write|mixed.replies|mixed.json|policy.json|blocking
bad_head.http!write|mixed.replies|mixed.json|policy.json|blocking
two.http!end1|mixed.replies|mixed.json|policy.json|blocking
two.http!end2|mixed.replies|mixed.json|policy.json|blocking
";

fn text_of(rt: &HostRuntime, name: &str) -> Option<String> {
    fs::read_to_string(rt, name).ok()
}

fn script(alloc: Global, input: &str) -> Result<Script, NoMemory> {
    Ok(Script {
        input: Bytes::new(input.as_bytes().to_vec(alloc)?),
        room: ROOM,
        sizes: vec![in alloc; 700, 1, 40]?,
        read_fails: Vec::new(alloc),
        write_fails: Vec::new(alloc),
    })
}

// Adds a link whose backend replies so.
fn push_link(alloc: Global, links: &mut Vec<MemLink>, line: &str) -> Result<(), NoMemory>
    requires { All IsUnused links.old.items }
    ensures { All IsUnused links.new.items }
{
    let reply = line.replace(alloc, "~", "\r\n")?;
    let link = MemLink::new(alloc, script(alloc, &reply)?)?;
    Ok(links.push(link)?)
}

// The numbers of the replies that are `!`, from 1.
fn fails_of(alloc: Global, replies: &str) -> Result<Vec<u64>, NoMemory> {
    let mut fails = Vec::new(alloc);
    let mut number = 0u64;
    for line in replies.lines() {
        number = number.saturating_add(1);
        if line == "!" {
            fails.push(number)?;
        }
    }
    Ok(fails)
}

// Backends that reply so, a line each, one after another. The one that replies `!` cannot be dialed.
fn dial_of(alloc: Global, replies: &str) -> Result<MemDial, NoMemory> {
    let mut links = Vec::new(alloc);
    for line in replies.lines() {
        push_link(alloc, &mut links, line)?;
    }
    let fails = fails_of(alloc, replies)?;
    MemDial::new(alloc, links, fails)
}

type OwnLog = OwnLane<LogSink<MemBytes, NoNotes>>;

// A log whose writes of these numbers fail.
fn log_of(alloc: Global, fails: Vec<u64>) -> Option<OwnLog> {
    let out = MemBytes::new(alloc, ROOM, fails).ok()?;
    let sink = LogSink::start(alloc, out, NoNotes).ok()?;
    Some(OwnLane { sink })
}

// The log, and what stands for a webhook.
fn logs_of(alloc: Global, fails: Vec<u64>) -> Option<(OwnLog, OwnLog)> {
    let log = log_of(alloc, fails)?;
    match log_of(alloc, Vec::new(alloc)) {
        Some(hook) => Some((log, hook)),
        None => {
            drop(log);
            None
        }
    }
}

// How the log is written to, and which of its writes fail: the first one of a strict log.
fn log_mode(alloc: Global, word: &str) -> Option<(SinkMode, Vec<u64>)>
    ensures { IfSome result (λ own. is_batch own.0 ≡ false) }
{
    match word {
        "strict" => Some((SinkMode::Strict, vec![in alloc; 1].ok()?)),
        _ => Some((SinkMode::Blocking, Vec::new(alloc))),
    }
}

fn show(rt: &HostRuntime, bytes: &[u8]) -> Option<()> {
    let text = str::from_utf8(bytes).ok()?;
    print!(rt; "{text}\n").ok()
}

// The bay of a run.
type OwnBay = Bay<TableRoutes, MemDial, OwnLog, OwnLog, MemClock, MemDiary>;

// The settings of a run.
fn own_settings(rt: &HostRuntime, policy: &str, log: SinkMode) -> Option<Settings>
    ensures { IfSome result (λ set. (set.max_event ≡ 102400) × (set.log ≡ log) × (set.hook ≡ Off)) }
{
    settings_of(
        rt.alloc(),
        &text_of(rt, "tokens.csv")?,
        &text_of(rt, policy)?,
        &text_of(rt, "endpoints.csv")?,
        log,
    )
}

// The second call of that name fails.
fn fail_second(ports: &mut Script, call: &str) -> Result<(), NoMemory> {
    match call {
        "read" => Ok(ports.read_fails.push(2)?),
        "write" => Ok(ports.write_fails.push(2)?),
        _ => Ok(()),
    }
}

// After which reply a connection wishes to end, if that is said. What memory refuses is left out.
fn wishes_of(alloc: Global, call: &str) -> Vec<bool> {
    let mut wishes = Vec::new(alloc);
    if call == "end2" {
        let _ = wishes.push(false);
    }
    if call.starts_with("end") {
        let _ = wishes.push(true);
    }
    wishes
}

// A client that sends these bytes.
fn client_of(rt: &HostRuntime, name: &str) -> Option<MemConn> {
    let alloc = rt.alloc();
    let (file, call) = name.split_once('!').unwrap_or((name, ""));
    let input = text_of(rt, file)?;
    let mut ports = script(alloc, &input).ok()?;
    if fail_second(&mut ports, call).is_err() {
        drop(ports);
        return None;
    }
    MemConn::wishing(alloc, [10, 0, 0, 7], ports, wishes_of(alloc, call)).ok()
}

fn bay_over(alloc: Global, routes: TableRoutes, dial: MemDial, log: OwnLog, hook: OwnLog) -> OwnBay
    ensures { (result.number ≡ 0) × (result.lanes.log_lines ≡ 0) × (result.lanes.hook_lines ≡ 0) }
{
    Bay {
        boot: 1,
        number: 0,
        routes,
        dial,
        lanes: Lanes {
            bay: 2,
            log,
            hook,
            log_lines: 0,
            hook_lines: 0,
        },
        clock: MemClock::new(Moment::epoch(), 1),
        diary: MemDiary::new(alloc),
    }
}

// A bay over these APIServices and these replies, with a log whose writes of these numbers fail.
fn own_bay(alloc: Global, services: &str, replies: &str, fails: Vec<u64>) -> Option<OwnBay>
    ensures { IfSome result (λ bay. (bay.number ≡ 0) × (bay.lanes.log_lines ≡ 0) × (bay.lanes.hook_lines ≡ 0)) }
{
    let (log, hook) = logs_of(alloc, fails)?;
    let Some(routes) = routes_of(alloc, services) else {
        drop(log);
        drop(hook);
        return None;
    };
    let Ok(dial) = dial_of(alloc, replies) else {
        drop(log);
        drop(hook);
        drop(routes);
        return None;
    };
    Some(bay_over(alloc, routes, dial, log, hook))
}

// What the diary notes, what the client got, what the backends were sent, and what the log says.
fn tell(rt: &HostRuntime, bay: &OwnBay, output: &[u8]) -> Option<()> {
    let alloc = rt.alloc();
    for exchange in bay.diary.exchanges() {
        show(rt, exchange_line(alloc, exchange)?.as_bytes())?;
    }
    print!(rt; "== replies\n").ok()?;
    show(rt, output)?;
    for call in bay.dial.calls()? {
        let [a, b, c, d] = call.to.ip;
        print!(rt; "== {a}.{b}.{c}.{d}:{} is sent\n", call.to.port).ok()?;
        show(rt, call.sent.as_slice())?;
    }
    print!(rt; "== log\n").ok()?;
    show(rt, bay.lanes.log.sink.out().bytes())
}

// A row of `RUNS`.
#[derive(Clone, Copy)]
struct Run<'r> {
    client: &'r str,
    replies: &'r str,
    services: &'r str,
    policy: &'r str,
    log: &'r str,
}

fn run_of(row: &str) -> Option<Run<'_>> {
    let (client, rest) = row.split_once('|')?;
    let (replies, rest) = rest.split_once('|')?;
    let (services, rest) = rest.split_once('|')?;
    let (policy, log) = rest.split_once('|')?;
    Some(Run {
        client,
        replies,
        services,
        policy,
        log,
    })
}

// Tells how a connection ended, and what came of it.
fn tell_end(
    rt: &HostRuntime,
    run: Run<'_>,
    mode: SinkMode,
    end: ConnEnd,
    bay: &OwnBay,
    output: &[u8],
) -> Option<()> {
    let Run {
        client,
        replies,
        ..
    } = run;
    print!(rt; "== {client}, {replies}, {mode:?}: {end:?}\n").ok()?;
    tell(rt, bay, output)
}

// Serves a client, and tells what came of it.
fn serve(rt: &HostRuntime, run: Run<'_>, settings: &Settings, bay: &mut OwnBay) -> Option<()>
    requires settings { (settings.now.max_event ≡ 102400) × (is_batch settings.now.log ≡ false) × (settings.now.hook ≡ Off) }
    requires bay { (bay.old.number ≡ 0) × (bay.old.lanes.log_lines ≡ 0) × (bay.old.lanes.hook_lines ≡ 0) }
{
    let mut conn = client_of(rt, run.client)?;
    let Ok(paths) = LocalPaths::new(rt.alloc()) else {
        drop(conn);
        return None;
    };
    let end = serve_connection(rt.alloc(), settings, &paths, bay, &mut conn);
    drop(paths);
    let told = tell_end(rt, run, settings.log, end, bay, conn.output());
    drop(conn);
    told
}

// The same over a bay of its own.
fn serve_run(rt: &HostRuntime, run: Run<'_>, settings: &Settings, fails: Vec<u64>) -> Option<()>
    requires { (settings.now.max_event ≡ 102400) × (is_batch settings.now.log ≡ false) × (settings.now.hook ≡ Off) }
{
    let services = text_of(rt, run.services)?;
    let replies = text_of(rt, run.replies)?;
    let mut bay = own_bay(rt.alloc(), services.as_str(), replies.as_str(), fails)?;
    let served = serve(rt, run, settings, &mut bay);
    drop(bay);
    served
}

fn show_run(rt: &HostRuntime, row: &str) -> Option<()> {
    let run = run_of(row)?;
    let (mode, fails) = log_mode(rt.alloc(), run.log)?;
    let settings = own_settings(rt, run.policy, mode)?;
    let served = serve_run(rt, run, &settings, fails);
    drop(settings);
    served
}

fn main(rt: HostRuntime) -> ExitCode {
    for row in RUNS.lines() {
        let Some(()) = show_run(&rt, row) else {
            return ExitCode::from(1);
        };
    }
    match show_order(&rt) {
        Some(()) => ExitCode::from(0),
        None => ExitCode::from(1),
    }
}
