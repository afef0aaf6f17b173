// One request, from its arrival to its last event.
ghost use Rattle.std.specs.Prelude.{◌≡◌, ◌≤◌, ◌<◌, IfOk, List, OnOk, true, ℕ};
ghost use Rattle.event_offers.specs.Lanes.{lanes_state};
ghost use Rattle.exchange_replies.specs.Statuses.{IsFinalErrand};
ghost use Rattle.front_base.specs.declared.audit_id.TheConstants.{MOST_REQUESTS};
ghost use Rattle.front_ports.specs.Cause.{Rose};
ghost use Rattle.session_core.specs.Bays.{bay_state, BayState, CanOffer, IsReady};
ghost use Rattle.session_core.specs.Closing.{IsAside};
ghost use Rattle.session_core.specs.Exchange.{WasRead};
ghost use Rattle.session_core.specs.Parts as spec;
ghost use Rattle.session_core.specs.Steps as steps;

use crate::bay::Bay;
use crate::begun::{Begun, arrive};
use crate::diary::Diary;
use crate::handling::handle;
use crate::replying::answer;
use crate::work::{Work, not_routed};
use apiservice_table::Routes;
use audit_core::{Settings, Stamp};
use event_offers::{lanes_stay, offers_join, stages_make_up_what_is_owed};
use exchange_replies::statuses_are_final;
use front_base::{AuditId, MOST_REQUESTS, NoMemory};
use front_ports::{Clock, Conn, Dial};
use http_edge::Request;
use local_replies::LocalPaths;
use stage_event::stages_hide;
use std::alloc::Global;
use stream_relay::Relayed;
use truncate_backend::Lane;

/// How a request was served.
#[derive(Clone, Copy, Debug, PartialEq, Eq)]
pub enum Outcome {
    /// Its reply was written whole, and the connection goes on.
    Whole,
    /// Its reply was written whole, and says that the connection ends.
    Last,
    /// A prefix of its reply was written, since a write failed.
    Cut,
    /// The body of its reply was cut by the backend.
    BackendCut,
    /// The body of its reply was too large to be handed on whole.
    StreamSpent,
    NoMemory,
}

fn outcome_of(served: Result<Relayed, NoMemory>, closing: bool) -> Outcome
    ensures { result ≡ spec.outcome_of served closing }
{
    match served {
        Ok(Relayed::Done) => {
            if closing {
                Outcome::Last
            } else {
                Outcome::Whole
            }
        }
        Ok(Relayed::WriteFault) => Outcome::Cut,
        Ok(Relayed::BackendCut) => Outcome::BackendCut,
        Ok(Relayed::StreamSpent) => Outcome::StreamSpent,
        Err(NoMemory) => Outcome::NoMemory,
    }
}

// Serves a request that was judged, and notes it. It is recorded, handled, sent on or not, and answered.
fn serve_begun<C: Conn, R: Routes, D: Dial, A: Lane, B: Lane, K: Clock, Y: Diary>(
    alloc: Global,
    settings: &Settings,
    bay: &mut Bay<R, D, A, B, K, Y>,
    conn: &mut C,
    request: Request,
    begun: Begun,
) -> Outcome
    requires offer { CanOffer settings.now (lanes_state A.Lane B.Lane bay.old.lanes) 3 }
    requires status { IsFinalErrand begun.errand }
    requires read { WasRead request }
    requires number { bay.old.number < MOST_REQUESTS }
    requires room { Y.has_room bay.old.diary ≡ true }
    ensures outcome { (peer : List ℕ) (m : BayState)
        → steps.Arrived settings.now peer request begun m (bay_state R.Routes D.Dial A.Lane B.Lane K.Clock Y.Diary bay.old)
        → spec.Outcomes settings.now peer request m (bay_state R.Routes D.Dial A.Lane B.Lane K.Clock Y.Diary bay.new)
        (C.written conn.old) (C.written conn.new) (Rose (C.write_faults conn.old) (C.write_faults conn.new))
        (C.wishes conn.old) (C.wishes conn.new) result }
    ensures later { C.write_faults conn.old ≤ C.write_faults conn.new }
    ensures aside { IsAside (C.from conn.old) (C.from conn.new) (C.left conn.old) (C.left conn.new)
        (C.read_faults conn.old) (C.read_faults conn.new) }
{
    stages_hide();
    stages_make_up_what_is_owed();
    offers_join();
    lanes_stay();
    bay.number += 1;
    let mut work = Work::begun(alloc, begun.decision, begun.facts);
    match handle(
        alloc,
        settings,
        &mut bay.routes,
        &mut bay.lanes,
        begun.errand,
        &mut work,
    ) {
        Ok(routed) => {
            let served = answer(
                alloc,
                settings,
                &mut bay.dial,
                &mut bay.lanes,
                &mut bay.clock,
                conn,
                &request,
                &routed.handling,
                &mut work,
            );
            let closing = work.closes(&request);
            bay.diary.note(work.into_exchange(request, routed));
            outcome_of(served, closing)
        }
        Err(NoMemory) => {
            bay.diary.note(work.into_exchange(request, not_routed()));
            Outcome::NoMemory
        }
    }
}

/// Serves a request that was read from a connection, and notes it.
pub fn serve_request<C: Conn, R: Routes, D: Dial, A: Lane, B: Lane, K: Clock, Y: Diary>(
    alloc: Global,
    settings: &Settings,
    paths: &LocalPaths,
    bay: &mut Bay<R, D, A, B, K, Y>,
    conn: &mut C,
    request: Request,
) -> Outcome
    requires ready { IsReady settings.now (bay_state R.Routes D.Dial A.Lane B.Lane K.Clock Y.Diary bay.old) }
    requires number { bay.old.number < MOST_REQUESTS }
    requires read { WasRead request }
    ensures outcome { spec.Outcomes settings.now (C.from conn.old) request (bay_state R.Routes D.Dial A.Lane B.Lane K.Clock Y.Diary bay.old)
        (bay_state R.Routes D.Dial A.Lane B.Lane K.Clock Y.Diary bay.new) (C.written conn.old) (C.written conn.new)
        (Rose (C.write_faults conn.old) (C.write_faults conn.new)) (C.wishes conn.old) (C.wishes conn.new) result }
    ensures ready { IsReady settings.now (bay_state R.Routes D.Dial A.Lane B.Lane K.Clock Y.Diary bay.new) }
    ensures later { C.write_faults conn.old ≤ C.write_faults conn.new }
    ensures aside { IsAside (C.from conn.old) (C.from conn.new) (C.left conn.old) (C.left conn.new)
        (C.read_faults conn.old) (C.read_faults conn.new) }
{
    statuses_are_final();
    stages_make_up_what_is_owed();
    lanes_stay();
    let received = bay.clock.now();
    let stamp = Stamp {
        id: AuditId {
            boot: bay.boot,
            bay: bay.lanes.bay,
            number: bay.number,
        },
        peer: conn.peer(),
        received,
        started: received,
        complete: received,
    };
    match arrive(alloc, settings, paths, &mut bay.diary, &stamp, &request) {
        Ok(begun) => serve_begun(alloc, settings, bay, conn, request, begun),
        Err(NoMemory) => {
            drop(request);
            Outcome::NoMemory
        }
    }
}
