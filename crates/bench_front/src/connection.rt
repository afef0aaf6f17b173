// One connection over ports in memory.
ghost use Rattle.std.specs.Prelude.{◌≡◌, IfSome};
ghost use Rattle.audit_core.specs.declared.sinks.SinkMode.TheVariants.{Blocking, Off};

use crate::conn::{NoSink, RepeatConn};
use crate::sinks::LoopDial;
use apiservice_rows::Rows;
use apiservice_table::{RouteTable, TableRoutes};
use audit_core::{Settings, SinkMode};
use event_offers::Lanes;
use front_base::Moment;
use front_ports::MemClock;
use http_edge::End;
use local_replies::LocalPaths;
use log_sink::LogSink;
use policy_rules::Policy;
use service_endpoints::read_endpoints;
use session_core::{Bay, ConnEnd, NoDiary, serve_connection};
use std::alloc::Global;
use token_users::read_tokens;
use truncate_backend::{NoNotes, OwnLane};

type OwnLog = OwnLane<LogSink<NoSink, NoNotes>>;

// Every request is recorded at Metadata, in a log that is written to at once.
fn settings(alloc: Global) -> Option<Settings>
    ensures { IfSome result (λ set. (set.max_event ≡ 102400) × (set.log ≡ Blocking) × (set.hook ≡ Off)) }
{
    let tokens = read_tokens(alloc, b"".as_slice()).ok()?;
    let Ok(policy) = Policy::all_metadata(alloc) else {
        drop(tokens);
        return None;
    };
    let Ok(endpoints) = read_endpoints(alloc, b"local,127.0.0.1:9001\n".as_slice()) else {
        drop(tokens);
        drop(policy);
        return None;
    };
    Some(Settings {
        tokens,
        policy,
        endpoints,
        max_event: 102_400,
        log: SinkMode::Blocking,
        hook: SinkMode::Off,
    })
}

fn log_of(alloc: Global) -> Option<OwnLog> {
    let sink = LogSink::start(alloc, NoSink, NoNotes).ok()?;
    Some(OwnLane { sink })
}

fn routes_of(alloc: Global) -> Option<TableRoutes> {
    let table = RouteTable::from_rows(alloc, Rows::new(Vec::new(alloc))).ok()?;
    TableRoutes::new(alloc, table).ok()
}

type OwnBay = Bay<TableRoutes, LoopDial, OwnLog, OwnLog, MemClock, NoDiary>;

fn bay_over(alloc: Global, routes: TableRoutes, log: OwnLog, hook: OwnLog) -> OwnBay
    ensures { (result.number ≡ 0) × (result.lanes.log_lines ≡ 0) × (result.lanes.hook_lines ≡ 0) }
{
    Bay {
        boot: 0,
        number: 0,
        routes,
        dial: LoopDial::new(alloc),
        lanes: Lanes {
            bay: 0,
            log,
            hook,
            log_lines: 0,
            hook_lines: 0,
        },
        clock: MemClock::new(Moment::epoch(), 1),
        diary: NoDiary,
    }
}

fn bay_of(alloc: Global) -> Option<OwnBay>
    ensures { IfSome result (λ bay. (bay.number ≡ 0) × (bay.lanes.log_lines ≡ 0) × (bay.lanes.hook_lines ≡ 0)) }
{
    let log = log_of(alloc)?;
    let Some(hook) = log_of(alloc) else {
        drop(log);
        return None;
    };
    let Some(routes) = routes_of(alloc) else {
        drop(log);
        drop(hook);
        return None;
    };
    Some(bay_over(alloc, routes, log, hook))
}

// Whether a bay with these settings serves a connection to its end.
fn is_served(
    alloc: Global,
    settings: &Settings,
    paths: &LocalPaths,
    bay: &mut OwnBay,
    mut conn: RepeatConn<'_>,
) -> bool
    requires settings { (settings.now.max_event ≡ 102400) × (settings.now.log ≡ Blocking) × (settings.now.hook ≡ Off) }
    requires bay { (bay.old.number ≡ 0) × (bay.old.lanes.log_lines ≡ 0) × (bay.old.lanes.hook_lines ≡ 0) }
{
    let end = serve_connection(alloc, settings, paths, bay, &mut conn);
    matches!(end, ConnEnd::Stopped(End::Ended))
}

fn serve_once(alloc: Global, settings: &Settings, conn: RepeatConn<'_>) -> Option<bool>
    requires { (settings.now.max_event ≡ 102400) × (settings.now.log ≡ Blocking) × (settings.now.hook ≡ Off) }
{
    let paths = LocalPaths::new(alloc).ok()?;
    let Some(mut bay) = bay_of(alloc) else {
        drop(paths);
        return None;
    };
    let served = is_served(alloc, settings, &paths, &mut bay, conn);
    drop(bay);
    drop(paths);
    Some(served)
}

/// Whether a connection that gives the text so often was served to its end. No request in it may be the last one of its
/// connection.
pub fn connection(alloc: Global, text: &[u8], times: u32) -> Option<bool> {
    let settings = settings(alloc)?;
    let served = serve_once(alloc, &settings, RepeatConn::new(text, times));
    drop(settings);
    served
}
