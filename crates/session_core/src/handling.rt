// How a request is handled.
ghost use Rattle.std.specs.Prelude.{◌≡◌, IfOk, OnErr};
ghost use Rattle.event_offers.specs.Lanes.{lanes_state};
ghost use Rattle.exchange_replies.specs.Statuses.{IsFinalErrand, IsFinalHandling};
ghost use Rattle.session_core.specs.Bays.{CanOffer};
ghost use Rattle.session_core.specs.Parts as spec;
ghost use Rattle.session_core.specs.Steps.{work_state};

use crate::work::{Work, errand_after};
use apiservice_table::Routes;
use audit_core::{Errand, Routed, Settings, handle_errand};
use event_offers::Lanes;
use exchange_replies::statuses_are_final;
use front_base::{NoMemory, Stage};
use std::alloc::Global;
use truncate_backend::Lane;

/// Offers the event of its arrival, and then decides how it is handled.
pub fn handle<R: Routes, A: Lane, B: Lane>(
    alloc: Global,
    settings: &Settings,
    routes: &mut R,
    lanes: &mut Lanes<A, B>,
    errand: Errand,
    work: &mut Work,
) -> Result<Routed, NoMemory>
    requires offer { CanOffer settings.now (lanes_state A.Lane B.Lane lanes.old) 1 }
    requires status { IsFinalErrand errand }
    ensures ok { IfOk result (spec.Handled settings.now errand (R.opening routes.old) (R.seen routes.old) (R.own routes.old)
        (lanes_state A.Lane B.Lane lanes.old) (work_state work.old) (R.seen routes.new) (R.own routes.new)
        (lanes_state A.Lane B.Lane lanes.new) (work_state work.new)) }
    ensures status { IfOk result (λ routed. IsFinalHandling routed.handling) }
    ensures err { OnErr result (spec.HandleHalts settings.now (R.seen routes.old) (R.own routes.old)
        (lanes_state A.Lane B.Lane lanes.old) (work_state work.old) (R.seen routes.new) (R.own routes.new)
        (lanes_state A.Lane B.Lane lanes.new) (work_state work.new)) }
    ensures fixed { R.opening routes.new ≡ R.opening routes.old }
{
    statuses_are_final();
    match work.offer(alloc, settings, Stage::RequestReceived, lanes) {
        Ok(()) => {
            let errand = errand_after(settings, work.notes.as_slice(), errand);
            handle_errand(alloc, &settings.endpoints, errand, routes)
        }
        Err(NoMemory) => {
            drop(errand);
            Err(NoMemory)
        }
    }
}
