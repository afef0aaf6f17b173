// The step Finish: a request was answered.
ghost use Rattle.std.specs.Prelude.{◌≡◌, ◌<◌, [], ℕ, Bool, List, Some, IfOk, OnOk, OnErr, vec_len, vec_capacity};
ghost use Rattle.model_requests.specs.Turns.{FinishesCurrent, answer_to, finished_by};
ghost use Rattle.audit_core.specs.Answer.{body_of};
ghost use Rattle.audit_core.specs.declared.link_note.LinkNote.TheVariants as note;
ghost use Rattle.model_sinks.specs.Fixed.{Fixed, Keeps, setup_of};
ghost use Rattle.model_sinks.specs.Running.{TurnsTo};
ghost use Rattle.stage_event.specs.Kept.{IsKeptAs};
ghost use Rattle.stage_event.specs.declared.facts.Kept as declared;
ghost use Rattle.model_worlds.specs.Steps as spec;

use crate::{handling, is_proxied, is_ready};
use audit_core::{Handling, LinkNote, kept_answer, status_of};
use front_base::{Level, Moment, NoMemory, Stage};
use model_offers::{due, settle};
use model_sinks::CoreSetup;
use model_worlds::{Bay, Exchange, Items, Open, Shared, StepAnswer};
use stage_event::{Kept, Show, kept_as, reply_due};
use std::alloc::Global;
use std::mem;

fn has_started(started: Option<u16>, status: u16) -> bool
    ensures { result ≡ spec.has_started started status }
{
    match started {
        None => false,
        Some(noted) => noted == status,
    }
}

fn finishes(opened: &Open, status: u16) -> bool
    ensures { result ≡ spec.finishes opened.now status }
{
    !opened.exchange.facts.info.is_long_running() || has_started(opened.phase.started, status)
}

fn can_finish(opened: &Open, status: u16) -> bool
    ensures { result ≡ spec.can_finish opened.now.exchange.level opened.now status }
{
    match opened.exchange.level {
        Level::None => true,
        Level::Metadata | Level::Request | Level::RequestResponse => finishes(opened, status),
    }
}

// What is kept of the answer of this server, of which that is shown.
fn kept_own(alloc: Global, show: Show, handling: &Handling, is_head: bool) -> Result<Kept, NoMemory>
    ensures { IfOk result (IsKeptAs show (spec.sent is_head (body_of handling.now note.NotUsed []))) }
{
    if is_head {
        kept_as(alloc, show, b"".as_slice())
    } else {
        kept_answer(alloc, show, handling, LinkNote::NotUsed, b"".as_slice())
    }
}

// The same, with managed fields or without them.
fn own_reply(
    alloc: Global,
    handling: &Handling,
    managed: bool,
    is_head: bool,
) -> Result<Kept, NoMemory>
    ensures { IfOk result (λ kept. (own : Fixed) (keep : Bool → List ℕ → declared.Kept) → Keeps keep
        → spec.own_reply (setup_of own keep) handling.now managed is_head ≡ kept) }
{
    kept_own(alloc, Show::of(true, managed), handling, is_head)
}

// What is kept of the reply's body where an event shows it.
fn reply_in(
    alloc: Global,
    handling: &Handling,
    opened: &Open,
    reply: Kept,
) -> Result<Kept, NoMemory>
    ensures { IfOk result (λ kept. (own : Fixed) (keep : Bool → List ℕ → declared.Kept) → Keeps keep
        → spec.reply_in (setup_of own keep) handling.now opened.now reply ≡ kept) }
{
    if !reply_due(opened.exchange.level, &opened.exchange.facts.info) {
        return Ok(Kept::NotAsked);
    }
    if is_proxied(handling) {
        return Ok(reply);
    }
    let exchange = &opened.exchange;
    own_reply(alloc, handling, exchange.managed, exchange.is_head)
}

// A link counts where the request is sent on.
fn link_in(handling: &Handling, link: LinkNote) -> LinkNote
    ensures { result ≡ spec.link_in handling.now link }
{
    if is_proxied(handling) {
        link
    } else {
        LinkNote::NotUsed
    }
}

// Notes that the request was answered, with that status, of whose body that is kept.
fn note_finished(
    alloc: Global,
    setup: &CoreSetup,
    link: LinkNote,
    status: u16,
    reply: Kept,
    moment: Moment,
    opened: &mut Open,
) -> Result<(), NoMemory>
    ensures ok { OnOk result ((keep : Bool → List ℕ → declared.Kept)
        → opened.new ≡ finished_by (setup_of setup.now keep) link status reply moment opened.old) }
    ensures err { OnErr result (opened.new ≡ opened.old) }
{
    let before = opened.exchange.facts.status;
    let since = opened.exchange.facts.complete;
    let seen = mem::replace(&mut opened.exchange.facts.reply, reply);
    opened.exchange.facts.status = status;
    opened.exchange.facts.complete = moment;
    let level = opened.exchange.level;
    match due(
        alloc,
        setup,
        Stage::ResponseComplete,
        level,
        &opened.exchange.facts,
    ) {
        Ok(waiting) => {
            opened.waiting = waiting;
            opened.exchange.link = link;
            opened.phase.finished = true;
            opened.phase.last = moment;
            Ok(())
        }
        Err(fault) => {
            opened.exchange.facts.status = before;
            opened.exchange.facts.complete = since;
            opened.exchange.facts.reply = seen;
            Err(fault)
        }
    }
}

// Notes that the request was answered as it was handled.
fn finish_open(
    alloc: Global,
    setup: &CoreSetup,
    handling: &Handling,
    link: LinkNote,
    reply: Kept,
    moment: Moment,
    opened: &mut Open,
) -> Result<(), NoMemory>
    ensures ok { OnOk result ((keep : Bool → List ℕ → declared.Kept) → Keeps keep
        → opened.new ≡ spec.finished_with (setup_of setup.now keep) handling.now link reply moment opened.old) }
    ensures err { OnErr result (opened.new ≡ opened.old) }
{
    let status = status_of(handling, link);
    let noted = link_in(handling, link);
    let shown = reply_in(alloc, handling, opened, reply)?;
    note_finished(alloc, setup, noted, status, shown, moment, opened)
}

// Answers the exchange, and settles it.
fn finish_current(
    alloc: Global,
    setup: &CoreSetup,
    handling: &Handling,
    link: LinkNote,
    reply: Kept,
    moment: Moment,
    closed: &mut Vec<Exchange>,
    current: &mut Option<Open>,
) -> Result<(), NoMemory>
    ensures ok { OnOk result ((keep : Bool → List ℕ → declared.Kept) → Keeps keep
        → FinishesCurrent (setup_of setup.now keep) handling.now link reply moment
        closed.old.items current.old closed.new.items current.new) }
    ensures closed { OnErr result (closed.new.items ≡ closed.old.items) }
    ensures current { OnErr result (current.new ≡ current.old) }
{
    closed.reserve(1)?;
    let Some(opened) = current else {
        return Ok(());
    };
    match finish_open(alloc, setup, handling, link, reply, moment, opened) {
        Ok(()) => {
            settle(closed, current);
            Ok(())
        }
        Err(fault) => Err(fault),
    }
}

// How the exchange is handled, where it can be answered so.
fn answer_to(
    alloc: Global,
    setup: &CoreSetup,
    link: LinkNote,
    moment: Moment,
    shared: &Shared,
    current: &Option<Open>,
) -> Result<Option<Handling>, NoMemory>
    ensures { IfOk result (λ own. (keep : Bool → List ℕ → declared.Kept)
        → own ≡ answer_to (setup_of setup.now keep) link moment shared.now current.now) }
{
    let Some(opened) = current else {
        return Ok(None);
    };
    if !is_ready(opened, moment) {
        return Ok(None);
    }
    let handling = handling(alloc, setup, shared, opened)?;
    if can_finish(opened, status_of(&handling, link)) {
        Ok(Some(handling))
    } else {
        Ok(None)
    }
}

/// The step Finish of a bay. One that has no exchange, and one whose exchange can't be answered yet or is answered, are idle,
/// and so is one whose long-running request didn't start with that status, unless nothing is recorded of it.
pub fn finish(
    alloc: Global,
    setup: &CoreSetup,
    link: LinkNote,
    reply: Kept,
    moment: Moment,
    shared: &Shared,
    b: &mut Bay,
) -> Result<StepAnswer, NoMemory>
    ensures ok { IfOk result (λ answer. (keep : Bool → List ℕ → declared.Kept) → Keeps keep
        → TurnsTo (spec.in_exchange (spec.finished (setup_of setup.now keep) link reply moment) shared.now b.old)
        shared.now b.old shared.now b.new answer) }
    ensures err { OnErr result (b.new ≡ b.old) }
{
    let Some(handling) = answer_to(alloc, setup, link, moment, shared, &b.current)? else {
        return Ok(StepAnswer::Idle);
    };
    let mut closed = b.closed.take_all(alloc);
    let current = &mut b.current;
    let done = finish_current(
        alloc,
        setup,
        &handling,
        link,
        reply,
        moment,
        &mut closed,
        current,
    );
    b.closed = Items::new(closed);
    match done {
        Ok(()) => Ok(StepAnswer::Noted),
        Err(fault) => Err(fault),
    }
}
