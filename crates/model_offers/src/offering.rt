// The step Offer: the next line that waits is offered to its sink.
ghost use Rattle.std.specs.Prelude.{◌≡◌, ◌<◌, ◌||◌, true, length, drop, ◌++◌, ◌∷◌, [], ℕ, Bool, List, IfOk, OnOk, OnErr};
ghost use Rattle.audit_core.specs.Offers as offers;
ghost use Rattle.model_offers.specs.Turns.{OffersCurrent, OffersFirst, can_offer};
ghost use Rattle.model_sinks.specs.Fixed.{setup_of};
ghost use Rattle.model_sinks.specs.Running.{TurnsTo, PushedTo};
ghost use Rattle.stage_event.specs.declared.facts.Kept.{Kept};
ghost use Rattle.model_worlds.specs.Steps as spec;

use crate::settling::settle;
use audit_core::{OfferNote, Outcome, Settings, Sink};
use front_base::NoMemory;
use model_sinks::{CoreSetup, push_due};
use model_worlds::{Bay, Exchange, Items, Open, Shared, StepAnswer, TryTold, Waiting};
use std::alloc::Global;

fn same_sink(this: Sink, that: Sink) -> bool
    ensures { result ≡ spec.same_sink this that }
{
    match (this, that) {
        (Sink::Log, Sink::Log) | (Sink::Webhook, Sink::Webhook) => true,
        (Sink::Log, Sink::Webhook) | (Sink::Webhook, Sink::Log) => false,
    }
}

// Offers what waits to its sink, and notes what became of it behind the other notes.
fn offer_noted(
    alloc: Global,
    setup: &CoreSetup,
    bay: u16,
    works: TryTold,
    shared: &mut Shared,
    due: &Waiting,
    notes: &mut Vec<OfferNote>,
) -> Result<OfferNote, NoMemory>
    ensures shared { IfOk result (λ note. (keep : Bool → List ℕ → Kept)
        → PushedTo (spec.pushed (setup_of setup.now keep) bay works shared.old due.now) due.now.sink
        shared.old shared.new note.outcome) }
    ensures note { IfOk result (λ note. note ≡ spec.note_of due.now note.outcome) }
    ensures notes { IfOk result (λ note. notes.new.items ≡ notes.old.items ++ note ∷ []) }
    ensures err { OnErr result ((shared.new ≡ shared.old) × (notes.new.items ≡ notes.old.items)) }
{
    notes.reserve(1)?;
    let outcome = push_due(alloc, setup, bay, works, shared, due)?;
    let note = OfferNote {
        sink: due.sink,
        stage: due.stage,
        outcome,
    };
    notes.push_reserved(note);
    Ok(note)
}

// Takes the first offer that waits away, of which that is noted.
fn take_first(alloc: Global, settings: &Settings, opened: &mut Open, note: OfferNote)
    requires { 0 < length opened.old.waiting }
    ensures { opened.new ≡ record {
      exchange = opened.old.exchange;
      phase = record opened.old.phase { failed = opened.old.phase.failed || offers.refuses settings.now note };
      waiting = drop 1 opened.old.waiting;
    } }
{
    let mut waiting = opened.waiting.take_all(alloc);
    waiting.remove(0);
    opened.waiting = Items::new(waiting);
    if note.refuses(settings) {
        opened.phase.failed = true;
    }
}

// Offers the first that waits.
fn offer_first(
    alloc: Global,
    setup: &CoreSetup,
    bay: u16,
    works: TryTold,
    shared: &mut Shared,
    opened: &mut Open,
) -> Result<Outcome, NoMemory>
    requires { 0 < length opened.old.waiting }
    ensures ok { IfOk result (λ own. (keep : Bool → List ℕ → Kept) → OffersFirst (setup_of setup.now keep) bay works
        shared.old opened.old own shared.new opened.new opened.old.waiting) }
    ensures err { OnErr result ((shared.new ≡ shared.old) × (opened.new ≡ opened.old)) }
{
    let mut notes = opened.exchange.notes.take_all(alloc);
    let due = &opened.waiting.as_slice()[0];
    let offered = offer_noted(alloc, setup, bay, works, shared, due, &mut notes);
    opened.exchange.notes = Items::new(notes);
    match offered {
        Ok(note) => {
            take_first(alloc, setup.settings(), opened, note);
            Ok(note.outcome)
        }
        Err(fault) => Err(fault),
    }
}

// Offers the first that waits, and settles the exchange.
fn offer_current(
    alloc: Global,
    setup: &CoreSetup,
    bay: u16,
    sink: Sink,
    works: TryTold,
    shared: &mut Shared,
    closed: &mut Vec<Exchange>,
    current: &mut Option<Open>,
) -> Result<Outcome, NoMemory>
    requires { can_offer current.old sink ≡ true }
    ensures ok { IfOk result (λ own. (keep : Bool → List ℕ → Kept) → OffersCurrent (setup_of setup.now keep) bay works
        shared.old closed.old.items current.old own shared.new closed.new.items current.new) }
    ensures shared { OnErr result (shared.new ≡ shared.old) }
    ensures closed { OnErr result (closed.new.items ≡ closed.old.items) }
    ensures current { OnErr result (current.new ≡ current.old) }
{
    closed.reserve(1)?;
    let Some(opened) = current else {
        return Err(NoMemory);
    };
    match offer_first(alloc, setup, bay, works, shared, opened) {
        Ok(outcome) => {
            settle(closed, current);
            Ok(outcome)
        }
        Err(fault) => Err(fault),
    }
}

// The next line that waits is for that sink.
fn can_offer(current: &Option<Open>, sink: Sink) -> bool
    ensures { result ≡ can_offer current.now sink }
{
    match current {
        None => false,
        Some(opened) => match opened.waiting.as_slice().first() {
            None => false,
            Some(due) => same_sink(due.sink, sink),
        },
    }
}

/// The step Offer of a bay. One whose next line that waits is for another sink, or that has none, is idle. A count that is
/// at its type's end counts as a lack of memory.
pub fn offer(
    alloc: Global,
    setup: &CoreSetup,
    bay: u16,
    sink: Sink,
    works: TryTold,
    shared: &mut Shared,
    b: &mut Bay,
) -> Result<StepAnswer, NoMemory>
    ensures ok { IfOk result (λ answer. (keep : Bool → List ℕ → Kept)
        → TurnsTo (spec.in_exchange (spec.offer (setup_of setup.now keep) bay sink works) shared.old b.old)
        shared.old b.old shared.new b.new answer) }
    ensures err { OnErr result ((shared.new ≡ shared.old) × (b.new ≡ b.old)) }
{
    if !can_offer(&b.current, sink) {
        return Ok(StepAnswer::Idle);
    }
    let mut closed = b.closed.take_all(alloc);
    let current = &mut b.current;
    let offered = offer_current(alloc, setup, bay, sink, works, shared, &mut closed, current);
    b.closed = Items::new(closed);
    match offered {
        Ok(outcome) => Ok(StepAnswer::Offered(outcome)),
        Err(fault) => Err(fault),
    }
}
