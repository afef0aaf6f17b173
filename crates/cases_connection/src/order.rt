// The order in which one exchange calls its ports: each port writes a line when it is called. `session_core` states what each port
// was told, and not which one was called before which; this shows it for a request that is sent on, for one that runs long, for one
// that is answered here, and for one that a strict sink refuses.
mod client;
mod dial;
mod lane;
mod settings;
mod time;

ghost use Rattle.std.specs.Prelude.{◌≡◌};
ghost use Rattle.audit_core.specs.declared.sinks.SinkMode.TheVariants.{Blocking, Strict};

use apiservice_rows::read_rows;
use apiservice_table::{RouteTable, TableRoutes, read_rows_fit};
use audit_core::Settings;
use client::TellingConn;
use dial::TellingDial;
use event_offers::Lanes;
use lane::TellingLane;
use local_replies::LocalPaths;
use session_core::{Bay, ConnEnd, serve_connection};
use settings::settings_of;
use std::alloc::Global;
use time::{TellingClock, TellingDiary};

const SERVICES: &[u8] =
    br#"{"kind":"APIService","apiVersion":"apiregistration.k8s.io/v1","metadata":{"name":"v1."},"spec":{"version":"v1","groupPriorityMinimum":18000,"versionPriority":1}}"#;

fn routes(alloc: Global) -> Option<TableRoutes> {
    read_rows_fit();
    let rows = read_rows(alloc, SERVICES).ok()?;
    TableRoutes::new(alloc, RouteTable::from_rows(alloc, rows).ok()?).ok()
}

// Serves one connection over ports that tell. The log's lane fails from its first line on where `fails` says so.
fn serve_told(
    rt: &HostRuntime,
    settings: &Settings,
    paths: &LocalPaths,
    routes: TableRoutes,
    text: &str,
    fails: bool,
) -> ConnEnd
    requires { (settings.now.max_event ≡ 102400) × (settings.now.log ≡ Strict) × (settings.now.hook ≡ Blocking) }
{
    let mut bay = Bay {
        boot: 1,
        number: 0,
        routes,
        dial: TellingDial::new(rt.stdout(), rt.stdout()),
        lanes: Lanes {
            bay: 0,
            log: TellingLane::new("log", rt.stdout(), fails),
            hook: TellingLane::new("webhook", rt.stdout(), false),
            log_lines: 0,
            hook_lines: 0,
        },
        clock: TellingClock::new(rt.stdout()),
        diary: TellingDiary { out: rt.stdout() },
    };
    let mut conn = TellingConn::new(text.as_bytes(), rt.stdout());
    let end = serve_connection(rt.alloc(), settings, paths, &mut bay, &mut conn);
    drop(bay);
    drop(conn);
    end
}

fn end_of(rt: &HostRuntime, settings: &Settings, text: &str, fails: bool) -> Option<ConnEnd>
    requires { (settings.now.max_event ≡ 102400) × (settings.now.log ≡ Strict) × (settings.now.hook ≡ Blocking) }
{
    let paths = LocalPaths::new(rt.alloc()).ok()?;
    let Some(routes) = routes(rt.alloc()) else {
        drop(paths);
        return None;
    };
    let end = serve_told(rt, settings, &paths, routes, text, fails);
    drop(paths);
    Some(end)
}

// One request of that target.
fn run(rt: &HostRuntime, target: &str, fails: bool) -> Option<()> {
    print!(rt; "== {target}\n").ok()?;
    let text = format!(in rt.alloc();
        "GET {target} HTTP/1.1\r\nHost: a\r\nConnection: close\r\n\r\n"
    ).ok()?;
    let settings = settings_of(rt.alloc())?;
    let end = end_of(rt, &settings, text.as_str(), fails);
    drop(settings);
    let end = end?;
    print!(rt; "{end:?}\n").ok()
}

/// Shows it for each of these requests. None where memory ran out, or where it could not be printed.
pub fn show_order(rt: &HostRuntime) -> Option<()> {
    let runs = [
        ("/api/v1/namespaces/a/pods", false),
        ("/api/v1/namespaces/a/pods?watch=1", false),
        ("/healthz", false),
        ("/api/v1/namespaces/b/pods", true),
    ];
    for (target, fails) in runs {
        run(rt, target, fails)?;
    }
    Some(())
}
