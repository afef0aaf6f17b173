// What is written of a request.
ghost use Rattle.std.specs.Prelude.{◌≡◌, ◌<◌, ◌≤◌, IfOk, OnErr};
ghost use Rattle.apiservice_table.specs.Changes.{rows_of};
ghost use Rattle.explain_run.specs.Lines as spec;

use crate::pushing::push_lines;
use crate::route_line::push_route;
use crate::setup::Setup;
use apiservice_table::TableRoutes;
use audit_core::{Answered, LineForm, LinkNote, Stamp, one_thread_decides, settle};
use front_base::{AuditId, MOST_REQUESTS, Moment, NoMemory};
use http_edge::Request;
use local_replies::LocalPaths;
use std::alloc::Global;

// The address that all requests of a run come from, since it has no connection.
const OWN_ADDRESS: [u8; 4] = [127, 0, 0, 1];

fn stamp_of(moment: Moment, number: u64) -> Stamp
    requires { number < MOST_REQUESTS }
    ensures { result ≡ spec.stamp_of moment number }
{
    Stamp {
        id: AuditId {
            boot: 0,
            bay: 0,
            number,
        },
        peer: OWN_ADDRESS,
        received: moment,
        started: moment,
        complete: moment,
    }
}

// Adds what is written of a request that was answered, and counts its events that are too large.
fn push_text(
    alloc: Global,
    setup: &Setup,
    number: u64,
    answered: &mut Answered,
    lines: &mut Vec<u8>,
) -> Result<u64, NoMemory>
    ensures ok { IfOk result (λ n.
        spec.Writes setup.now number answered.old lines.old.items lines.new.items n) }
    ensures few { IfOk result (λ n. n ≤ 3) }
    ensures kept { OnErr result (lines.new.items ≡ lines.old.items) }
{
    if setup.routes {
        push_route(alloc, number, &answered.handling, lines)?;
        return Ok(0);
    }
    let form = LineForm {
        most: setup.settings.max_event,
        end: b'\n',
    };
    push_lines(alloc, form, answered, lines)
}

/// Answers a request, which has that number and may change the table, adds what is written of it, and counts its events
/// that are too large.
pub fn add_lines(
    alloc: Global,
    setup: &Setup,
    paths: &LocalPaths,
    routes: &mut TableRoutes,
    number: u64,
    request: &Request,
    lines: &mut Vec<u8>,
) -> Result<u64, NoMemory>
    requires { number < MOST_REQUESTS }
    ensures adds { IfOk result (λ n. spec.Adds setup.now number request.now
        (rows_of routes.old) (rows_of routes.new) lines.old.items lines.new.items n) }
    ensures few { IfOk result (λ n. n ≤ 3) }
    ensures kept { OnErr result (lines.new.items ≡ lines.old.items) }
{
    one_thread_decides();
    let stamp = stamp_of(setup.moment, number);
    let mut answered = settle(
        alloc,
        &setup.settings,
        paths,
        routes,
        &stamp,
        request,
        LinkNote::Whole(200),
        b"".as_slice(),
    )?;
    push_text(alloc, setup, number, &mut answered, lines)
}
