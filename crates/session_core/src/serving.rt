// A connection, request after request.
ghost use Rattle.std.specs.Prelude.{◌≡◌, ◌≤◌, IfSome, List};
ghost use Rattle.exchange_replies.specs.Own.{IsUnread};
ghost use Rattle.front_base.specs.declared.audit_id.TheConstants.{MOST_REQUESTS};
ghost use Rattle.front_ports.specs.Cause.{Rose};
ghost use Rattle.session_core.specs.Bays.{bay_state, IsReady};
ghost use Rattle.session_core.specs.Closing.{IsAside};
ghost use Rattle.session_core.specs.Connection.{conn_state};
ghost use Rattle.session_core.specs.Connection as spec;
ghost use Rattle.session_core.specs.Ends as ends;
ghost use Rattle.session_core.specs.Exchange.{WasRead};
ghost use Rattle.session_core.specs.declared.exchange.Exchange.{Exchange};

use crate::bay::Bay;
use crate::conn_end::ConnEnd;
use crate::diary::Diary;
use crate::session::{Outcome, serve_request};
use apiservice_table::Routes;
use audit_core::Settings;
use exchange_replies::{put_text, refusal_text};
use front_base::MOST_REQUESTS;
use front_ports::{ByteSink, Clock, Conn, Dial};
use http_edge::{Edge, End, Request, Stop, requests_stay};
use local_replies::LocalPaths;
use std::alloc::Global;
use truncate_backend::Lane;

// The code of the refusal that what is no request gets.
fn refusal_of(end: End) -> Option<u16>
    ensures is { result ≡ spec.refusal_of end }
    ensures unread { IfSome result IsUnread }
{
    match end {
        End::BadHead | End::BadFraming => Some(400),
        End::BodyTooLarge => Some(413),
        End::HeadTooLarge => Some(431),
        End::Ended | End::Asked | End::CutShort => None,
    }
}

// Refuses what is no request.
fn refuse<O: ByteSink>(out: &mut O, end: End)
    ensures writes { ends.Refuses (spec.refusal_of end) (O.written out.old) (O.written out.new)
        (Rose (O.write_faults out.old) (O.write_faults out.new)) }
    ensures later { O.write_faults out.old ≤ O.write_faults out.new }
    ensures aside { O.inward out.new ≡ O.inward out.old }
{
    if let Some(code) = refusal_of(end) {
        put_text(out, refusal_text(code));
    }
}

// How a connection ends where no request came: what is no request is refused.
fn stopped<O: ByteSink>(out: &mut O, stop: Stop) -> ConnEnd
    ensures end { result ≡ ends.end_of_stop stop }
    ensures writes { ends.RefusesAt stop (O.written out.old) (O.written out.new)
        (Rose (O.write_faults out.old) (O.write_faults out.new)) }
    ensures later { O.write_faults out.old ≤ O.write_faults out.new }
    ensures aside { O.inward out.new ≡ O.inward out.old }
{
    match stop {
        Stop::Refused(end) => {
            refuse(out, end);
            ConnEnd::Stopped(end)
        }
        Stop::ReadFault => ConnEnd::ReadFault,
        Stop::NoMemory => ConnEnd::NoMemory,
    }
}

// How a connection ends after a request that was served so, or that it goes on.
fn end_after(outcome: Outcome) -> Option<ConnEnd>
    ensures { result ≡ ends.end_after outcome }
{
    match outcome {
        Outcome::Whole => None,
        Outcome::Last => Some(ConnEnd::Stopped(End::Asked)),
        Outcome::Cut => Some(ConnEnd::WriteFault),
        Outcome::BackendCut => Some(ConnEnd::BackendCut),
        Outcome::StreamSpent => Some(ConnEnd::StreamSpent),
        Outcome::NoMemory => Some(ConnEnd::NoMemory),
    }
}

// Serves a request, where the bay has a number for it.
fn serve_numbered<C: Conn, R: Routes, D: Dial, A: Lane, B: Lane, K: Clock, Y: Diary>(
    alloc: Global,
    settings: &Settings,
    paths: &LocalPaths,
    bay: &mut Bay<R, D, A, B, K, Y>,
    conn: &mut C,
    request: Request,
) -> Option<ConnEnd>
    requires read { WasRead request }
    requires ready { IsReady settings.now (bay_state R.Routes D.Dial A.Lane B.Lane K.Clock Y.Diary bay.old) }
    ensures serves { ends.ServesOne settings.now (C.from conn.old) request
        (bay_state R.Routes D.Dial A.Lane B.Lane K.Clock Y.Diary bay.old) (bay_state R.Routes D.Dial A.Lane B.Lane K.Clock Y.Diary bay.new)
        (C.written conn.old) (C.written conn.new) (Rose (C.write_faults conn.old) (C.write_faults conn.new))
        (C.wishes conn.old) (C.wishes conn.new) result }
    ensures ready { IsReady settings.now (bay_state R.Routes D.Dial A.Lane B.Lane K.Clock Y.Diary bay.new) }
    ensures later { C.write_faults conn.old ≤ C.write_faults conn.new }
    ensures aside { IsAside (C.from conn.old) (C.from conn.new) (C.left conn.old) (C.left conn.new)
        (C.read_faults conn.old) (C.read_faults conn.new) }
{
    if bay.number == MOST_REQUESTS {
        drop(request);
        return Some(ConnEnd::NumbersSpent);
    }
    end_after(serve_request(alloc, settings, paths, bay, conn, request))
}

// Serves what a connection has next. Nothing is answered where it goes on.
fn serve_next<C: Conn, R: Routes, D: Dial, A: Lane, B: Lane, K: Clock, Y: Diary>(
    alloc: Global,
    settings: &Settings,
    paths: &LocalPaths,
    edge: &mut Edge,
    bay: &mut Bay<R, D, A, B, K, Y>,
    conn: &mut C,
) -> Option<ConnEnd>
    requires ready { IsReady settings.now (bay_state R.Routes D.Dial A.Lane B.Lane K.Clock Y.Diary bay.old) }
    ensures serves { ends.ServesNext settings.now (C.from conn.old)
        (bay_state R.Routes D.Dial A.Lane B.Lane K.Clock Y.Diary bay.old) (bay_state R.Routes D.Dial A.Lane B.Lane K.Clock Y.Diary bay.new)
        edge.old edge.new (conn_state C.Source C.ByteSink C.Conn.own conn.old) (conn_state C.Source C.ByteSink C.Conn.own conn.new) result }
    ensures ready { IsReady settings.now (bay_state R.Routes D.Dial A.Lane B.Lane K.Clock Y.Diary bay.new) }
    ensures peer { C.from conn.new ≡ C.from conn.old }
    ensures read_later { C.read_faults conn.old ≤ C.read_faults conn.new }
    ensures write_later { C.write_faults conn.old ≤ C.write_faults conn.new }
{
    match edge.next_request(alloc, conn) {
        Ok(request) => serve_numbered(alloc, settings, paths, bay, conn, request),
        Err(stop) => Some(stopped(conn, stop)),
    }
}

/// Serves a connection until it ends: each request of its input in order, as `Exchanged` says, and what is no request after
/// them with its refusal. `xs` are all exchanges that it had, in order.
///
/// `Stopped` tells why the input has no more requests, also where its refusal could not be written whole. It is `Asked` too
/// where the connection wished to end after the last reply: then the rest of its input is left. `ReadFault` and `WriteFault` come only where a count of faults rose:
/// then the requests that stand whole in what was read were served, or those up to the one whose reply was cut. After
/// `BackendCut` and `StreamSpent` the reply to the last one, which was handed on as it came, has all of its body that came
/// from the backend. After `NumbersSpent` the bay has no number for the request that stands next. After `NoMemory` the connection is given up; the
/// request in hand has a prefix of its offers, and is noted unless it left no trace.
///
/// The bay may serve the next connection after each of these ends.
pub fn serve_connection<C: Conn, R: Routes, D: Dial, A: Lane, B: Lane, K: Clock, Y: Diary>(
    alloc: Global,
    settings: &Settings,
    paths: &LocalPaths,
    bay: &mut Bay<R, D, A, B, K, Y>,
    conn: &mut C,
) -> ConnEnd
    requires ready { IsReady settings.now (bay_state R.Routes D.Dial A.Lane B.Lane K.Clock Y.Diary bay.old) }
    ensures serves { (xs : List Exchange) × spec.Serves settings.now (C.from conn.old) (bay_state R.Routes D.Dial A.Lane B.Lane K.Clock Y.Diary bay.old) (bay_state R.Routes D.Dial A.Lane B.Lane K.Clock Y.Diary bay.new)
        (conn_state C.Source C.ByteSink C.Conn.own conn.old) (conn_state C.Source C.ByteSink C.Conn.own conn.new) result xs }
    ensures ready { IsReady settings.now (bay_state R.Routes D.Dial A.Lane B.Lane K.Clock Y.Diary bay.new) }
    ensures peer { C.from conn.new ≡ C.from conn.old }
    ensures read_later { C.read_faults conn.old ≤ C.read_faults conn.new }
    ensures write_later { C.write_faults conn.old ≤ C.write_faults conn.new }
{
    requests_stay();
    let Ok(mut edge) = Edge::new(alloc) else {
        return ConnEnd::NoMemory;
    };
    'serving: loop {
        if let Some(end) = serve_next(alloc, settings, paths, &mut edge, bay, conn) {
            drop(edge);
            return end;
        }
    }
}
