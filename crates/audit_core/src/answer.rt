ghost use Rattle.std.specs.Prelude.{◌≡◌, IfOk};
ghost use Rattle.stage_event.specs.Kept.{IsKeptAs};
ghost use Rattle.audit_core.specs.Answer as spec;

use crate::link_note::LinkNote;
use crate::routed::Handling;
use front_base::NoMemory;
use local_replies::front_refusal;
use stage_event::{Kept, Show, kept_as};
use std::alloc::Global;

fn link_status(note: LinkNote) -> u16
    ensures { result ≡ spec.link_status note }
{
    match note {
        LinkNote::Whole(status) | LinkNote::Streamed(status) => status,
        LinkNote::NotUsed | LinkNote::DialFailed => 503,
        LinkNote::BadReply | LinkNote::Cut | LinkNote::LinkFault => 502,
    }
}

/// The status code of the answer to a request that is handled so, where its link came to that.
pub fn status_of(handling: &Handling, note: LinkNote) -> u16
    ensures { result ≡ spec.status_of handling.now note }
{
    match handling {
        Handling::Refused(code) => *code,
        Handling::Served { reply, .. } => reply.status,
        Handling::Proxied(_) => link_status(note),
    }
}

fn kept_refusal(alloc: Global, show: Show, code: u16) -> Result<Kept, NoMemory>
    ensures { IfOk result (IsKeptAs show (spec.refused_body code)) }
{
    kept_as(alloc, show, front_refusal(alloc, code)?.body.as_slice())
}

fn kept_of_link(alloc: Global, show: Show, note: LinkNote, body: &[u8]) -> Result<Kept, NoMemory>
    ensures { IfOk result (IsKeptAs show (spec.link_body note body.now)) }
{
    match note {
        LinkNote::Whole(_) | LinkNote::Streamed(_) => kept_as(alloc, show, body),
        LinkNote::NotUsed | LinkNote::DialFailed => kept_refusal(alloc, show, 503),
        LinkNote::BadReply | LinkNote::Cut | LinkNote::LinkFault => kept_refusal(alloc, show, 502),
    }
}

/// What is kept of the answer's body, where the link gave that one.
pub fn kept_answer(
    alloc: Global,
    show: Show,
    handling: &Handling,
    note: LinkNote,
    body: &[u8],
) -> Result<Kept, NoMemory>
    ensures { IfOk result (IsKeptAs show (spec.body_of handling.now note body.now)) }
{
    match handling {
        Handling::Refused(code) => kept_refusal(alloc, show, *code),
        Handling::Served { reply, .. } => kept_as(alloc, show, reply.body.as_slice()),
        Handling::Proxied(_) => kept_of_link(alloc, show, note, body),
    }
}
