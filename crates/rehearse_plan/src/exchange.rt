// One exchange beside the request that was to be made.
ghost use Rattle.std.specs.Prelude.{◌≡◌, IfOk, OnOk, true};
ghost use Rattle.rehearse_plan.specs.Planned as spec;

use crate::kind::Kind;
use crate::request::{body_of, target_of};
use audit_core::{LinkNote, OfferNote, Outcome, Sink};
use front_base::Stage;
use http_edge::Request;
use session_core::Exchange;
use std::alloc::{AllocError, Global};

// The request is the one that was made.
fn is_made(alloc: Global, kind: Kind, number: u32, request: &Request) -> Result<bool, AllocError>
    ensures { IfOk result (λ made. made ≡ true → spec.IsMade kind number request.now) }
{
    let target = target_of(alloc, kind, number)?;
    let body = body_of(alloc, kind, number)?;
    Ok(
        request.head.method.as_str() == kind.method()
            && request.head.target.as_str() == target.as_str()
            && request.body.as_slice() == body.as_bytes(),
    )
}

fn is_taken(stage: Stage, note: &OfferNote) -> bool
    ensures { result ≡ true → note.now ≡ spec.taken stage }
{
    note.sink == Sink::Webhook && note.stage == stage && note.outcome == Outcome::Taken
}

// The webhook took the event of each stage, and there is no other one.
fn are_taken(kind: Kind, notes: &[OfferNote]) -> bool
    ensures { result ≡ true → notes.now ≡ spec.taken_of kind }
{
    match (kind, notes) {
        (Kind::Secret, notes) => notes.is_empty(),
        (Kind::Watch, [received, started, complete]) => {
            is_taken(Stage::RequestReceived, received)
                && is_taken(Stage::ResponseStarted, started)
                && is_taken(Stage::ResponseComplete, complete)
        }
        (Kind::Watch, _) => false,
        (_, [received, complete]) => {
            is_taken(Stage::RequestReceived, received)
                && is_taken(Stage::ResponseComplete, complete)
        }
        _ => false,
    }
}

// What its link came to.
fn is_linked(kind: Kind, link: LinkNote) -> bool
    ensures { result ≡ true → link ≡ spec.link_of kind }
{
    if kind.is_proxied() {
        link == LinkNote::Whole(kind.status())
    } else {
        link == LinkNote::NotUsed
    }
}

/// Whether an exchange is the one of the request of that kind and number.
pub fn is_planned(alloc: Global, kind: Kind, number: u32, x: &Exchange) -> Result<bool, AllocError>
    ensures { IfOk result (λ planned. planned ≡ true → spec.IsPlanned kind number x.now) }
{
    Ok(
        is_made(alloc, kind, number, &x.request)?
            && x.decision.level == kind.level()
            && x.facts.status == kind.status()
            && is_linked(kind, x.link)
            && are_taken(kind, x.offers.as_slice()),
    )
}
