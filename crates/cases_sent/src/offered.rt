ghost use Rattle.std.specs.Prelude.{◌≡◌, ◌≤◌, IfSome};
ghost use Rattle.audit_core.specs.declared.sinks.SinkMode.TheVariants as SinkMode;

use crate::fixtures::{ann, field, text_of};
use audit_core::{Settings, SinkMode};
use event_offers::{Lanes, offer_stage};
use front_base::{AuditId, Info, Level, Moment, NoMemory, Stage};
use front_ports::MemBytes;
use log_sink::LogSink;
use policy_rules::{Decision, Omit, Policy};
use service_endpoints::Endpoints;
use stage_event::Facts;
use std::alloc::Global;
use std::io;
use token_users::read_tokens;
use truncate_backend::{NoNotes, OwnLane};

type OwnLog = OwnLane<LogSink<MemBytes, NoNotes>>;

type OwnLanes = Lanes<OwnLog, OwnLog>;

// The settings of a log whose lines have so many bytes at most, with no webhook.
fn settings_of(alloc: Global, max_event: u64) -> Option<Settings>
    ensures { IfSome result (λ set.
        (set.max_event ≡ max_event) × (set.log ≡ SinkMode.Blocking) × (set.hook ≡ SinkMode.Off)) }
{
    let tokens = read_tokens(alloc, b"".as_slice()).ok()?;
    let Ok(policy) = Policy::all_metadata(alloc) else {
        drop(tokens);
        return None;
    };
    Some(Settings {
        tokens,
        policy,
        endpoints: Endpoints::none(alloc),
        max_event,
        log: SinkMode::Blocking,
        hook: SinkMode::Off,
    })
}

// A request for `/healthz`.
fn info(alloc: Global) -> Info {
    Info {
        resource_request: false,
        path: text_of(alloc, "/healthz"),
        verb: text_of(alloc, "get"),
        group: text_of(alloc, ""),
        version: text_of(alloc, ""),
        namespace: text_of(alloc, ""),
        resource: text_of(alloc, ""),
        subresource: text_of(alloc, ""),
        name: text_of(alloc, ""),
    }
}

fn facts(alloc: Global) -> Facts {
    let id = AuditId {
        boot: 0,
        bay: 3,
        number: 0,
    };
    Facts::begin(
        id,
        text_of(alloc, "/healthz"),
        info(alloc),
        ann(alloc),
        None,
        [127, 0, 0, 1],
        text_of(alloc, ""),
        Moment::epoch(),
    )
}

fn decision() -> Decision {
    Decision {
        rule: None,
        level: Level::Metadata,
        omit: Omit {
            received: false,
            started: false,
            complete: false,
        },
        omit_managed: false,
    }
}

// The numbers of the writes that fail: that of the field, or none.
fn fails_of(alloc: Global, field: &str) -> Vec<u64> {
    match field.parse() {
        Ok(number) => vec![in alloc; number].unwrap_or(Vec::new(alloc)),
        Err(_) => Vec::new(alloc),
    }
}

fn log_of(alloc: Global, fails: Vec<u64>) -> Result<OwnLog, NoMemory> {
    let out = MemBytes::new(alloc, 10_000, fails)?;
    Ok(OwnLane {
        sink: LogSink::start(alloc, out, NoNotes)?,
    })
}

// The lanes of a bay that has offered seven lines to its log.
fn lanes_of(alloc: Global, fails: Vec<u64>) -> Option<OwnLanes>
    ensures { IfSome result (λ lanes. (lanes.log_lines ≡ 7) × (lanes.hook_lines ≡ 0)) }
{
    let log = log_of(alloc, fails).ok()?;
    let hook = log_of(alloc, Vec::new(alloc)).ok()?;
    Some(Lanes {
        bay: 3,
        log,
        hook,
        log_lines: 7,
        hook_lines: 0,
    })
}

// The lines of a log as they are printed.
fn lines(bytes: &[u8]) -> &str {
    str::from_utf8(bytes).unwrap_or("not UTF-8")
}

fn show_lanes(rt: &HostRuntime, lanes: &OwnLanes) -> io::Result<()> {
    let bytes = lanes.log.sink.out().bytes();
    println!(rt;
        "  {} lines, {} bytes\n{}  {} to the webhook",
        lanes.log_lines,
        bytes.len(),
        lines(bytes),
        lanes.hook_lines
    )
}

// What becomes of the event of an arrival.
fn show_offer(
    rt: &HostRuntime,
    settings: &Settings,
    lanes: &mut OwnLanes,
    facts: &Facts,
) -> io::Result<()>
    requires max { settings.now.max_event ≤ 4194304 }
    requires sinks { (settings.now.log ≡ SinkMode.Blocking) × (settings.now.hook ≡ SinkMode.Off) }
    requires lines { (lanes.old.log_lines ≡ 7) × (lanes.old.hook_lines ≡ 0) }
{
    let mut notes = Vec::new(rt.alloc());
    let stage = Stage::RequestReceived;
    let offered = offer_stage(
        rt.alloc(),
        settings,
        decision(),
        facts,
        stage,
        lanes,
        &mut notes,
    );
    println!(rt; "  {offered:?} {:?}", notes.as_slice())
}

fn show_arrival(
    rt: &HostRuntime,
    settings: &Settings,
    lanes: &mut OwnLanes,
    facts: &Facts,
) -> io::Result<()>
    requires max { settings.now.max_event ≤ 4194304 }
    requires sinks { (settings.now.log ≡ SinkMode.Blocking) × (settings.now.hook ≡ SinkMode.Off) }
    requires lines { (lanes.old.log_lines ≡ 7) × (lanes.old.hook_lines ≡ 0) }
{
    show_offer(rt, settings, lanes, facts)?;
    show_lanes(rt, lanes)
}

fn show_bay(rt: &HostRuntime, settings: &Settings, lanes: &mut OwnLanes) -> io::Result<()>
    requires max { settings.now.max_event ≤ 4194304 }
    requires sinks { (settings.now.log ≡ SinkMode.Blocking) × (settings.now.hook ≡ SinkMode.Off) }
    requires lines { (lanes.old.log_lines ≡ 7) × (lanes.old.hook_lines ≡ 0) }
{
    let facts = facts(rt.alloc());
    let shown = show_arrival(rt, settings, lanes, &facts);
    drop(facts);
    shown
}

fn show_by(rt: &HostRuntime, row: &str, settings: &Settings) -> io::Result<()>
    requires max { settings.now.max_event ≤ 4194304 }
    requires sinks { (settings.now.log ≡ SinkMode.Blocking) × (settings.now.hook ≡ SinkMode.Off) }
{
    match lanes_of(rt.alloc(), fails_of(rt.alloc(), field(row, 1))) {
        Some(mut lanes) => {
            let shown = show_bay(rt, settings, &mut lanes);
            drop(lanes);
            shown
        }
        None => println!(rt; "  out of memory"),
    }
}

/// What becomes of an event that a log is offered. A row has the most bytes of a line, and the write that fails.
pub fn show_offered(rt: &HostRuntime, row: &str) -> io::Result<()> {
    let most: u64 = field(row, 0).parse().unwrap_or(0);
    match settings_of(rt.alloc(), most.min(4_194_304)) {
        Some(settings) => {
            let shown = show_by(rt, row, &settings);
            drop(settings);
            shown
        }
        None => println!(rt; "  no settings"),
    }
}
