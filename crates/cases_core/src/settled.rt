use crate::fixtures::{field, request_of, settings_of, shown};
use apiservice_rows::read_rows;
use apiservice_table::{RouteTable, TableRoutes, read_rows_fit};
use audit_core::{Answered, LineForm, LinkNote, Settings, Stamp, push_owed, settle};
use case_rows::read_cases;
use front_base::{AuditId, Moment, NoMemory};
use http_edge::Request;
use local_replies::LocalPaths;
use std::alloc::Global;
use std::io;

fn moment(micros: u64) -> Moment {
    Moment::new(micros).unwrap_or(Moment::epoch())
}

// Three moments, a second apart.
fn stamp() -> Stamp {
    Stamp {
        id: AuditId {
            boot: 1,
            bay: 2,
            number: 3,
        },
        peer: [10, 0, 0, 7],
        received: moment(1_735_689_600_000_000),
        started: moment(1_735_689_601_000_000),
        complete: moment(1_735_689_602_000_000),
    }
}

fn routes_of(alloc: Global, services: &str) -> Option<TableRoutes> {
    read_rows_fit();
    let rows = read_rows(alloc, services.as_bytes()).ok()?;
    TableRoutes::new(alloc, RouteTable::from_rows(alloc, rows).ok()?).ok()
}

// The lines of the events, after what was there.
fn lines_of(alloc: Global, answered: &Answered) -> Result<Vec<u8>, NoMemory> {
    let mut out = b"before\n".to_vec(alloc)?;
    let form = LineForm {
        most: 4_096,
        end: b'\n',
    };
    push_owed(alloc, answered, form, &mut out)?;
    Ok(out)
}

fn show_answered(rt: &HostRuntime, answered: &Answered) -> io::Result<()> {
    println!(rt; "  {:?}\n  {:?}", answered.decision, answered.handling)?;
    match lines_of(rt.alloc(), answered) {
        Ok(lines) => print!(rt; "{}", shown(lines.as_slice())),
        Err(_) => println!(rt; "  out of memory"),
    }
}

fn answer(
    alloc: Global,
    settings: &Settings,
    paths: &LocalPaths,
    routes: &mut TableRoutes,
    request: &Request,
) -> Result<Answered, NoMemory> {
    settle(
        alloc,
        settings,
        paths,
        routes,
        &stamp(),
        request,
        LinkNote::Whole(200),
        b"".as_slice(),
    )
}

fn show_routed(
    rt: &HostRuntime,
    settings: &Settings,
    routes: &mut TableRoutes,
    request: &Request,
) -> io::Result<()> {
    let Ok(paths) = LocalPaths::new(rt.alloc()) else {
        return println!(rt; "  no answer");
    };
    let answered = answer(rt.alloc(), settings, &paths, routes, request);
    drop(paths);
    match answered {
        Ok(answered) => {
            let shown = show_answered(rt, &answered);
            drop(answered);
            shown
        }
        Err(_) => println!(rt; "  no answer"),
    }
}

fn show_request(
    rt: &HostRuntime,
    services: &str,
    settings: &Settings,
    request: &Request,
) -> io::Result<()> {
    match routes_of(rt.alloc(), services) {
        Some(mut routes) => {
            let shown = show_routed(rt, settings, &mut routes, request);
            drop(routes);
            shown
        }
        None => println!(rt; "  no answer"),
    }
}

fn show_by(rt: &HostRuntime, row: &str, settings: &Settings) -> io::Result<()> {
    let services = read_cases(rt, "services.json")?;
    match request_of(rt.alloc(), field(row, 0), field(row, 1)) {
        Some(request) => {
            let shown = show_request(rt, services.as_str(), settings, &request);
            drop(request);
            shown
        }
        None => println!(rt; "  no request"),
    }
}

// The policy of a row: its third field, if it has one.
fn policy_of(row: &str) -> &str {
    match field(row, 2) {
        "" => "policy.json",
        name => name,
    }
}

/// How a request is recorded and answered, and the lines of its events. A row has the head, the body and the policy.
pub fn show_settled(rt: &HostRuntime, row: &str) -> io::Result<()> {
    match settings_of(rt, policy_of(row)) {
        Some(settings) => {
            let shown = show_by(rt, row, &settings);
            drop(settings);
            shown
        }
        None => println!(rt; "  no settings"),
    }
}
