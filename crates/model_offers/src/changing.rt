// The step Change: the change that a request asks for is made, unless the rows refuse it.
ghost use Rattle.std.specs.Prelude.{◌≡◌, ℕ, Bool, List, IfOk, OnOk, OnErr, option_map};
ghost use Rattle.apiservice_table.specs.Changes as table;
ghost use Rattle.model_sinks.specs.Fixed.{setup_of};
ghost use Rattle.model_sinks.specs.Running.{TurnsTo};
ghost use Rattle.stage_event.specs.declared.facts.Kept.{Kept};
ghost use Rattle.model_worlds.specs.Steps as spec;

use crate::tables::table_after;
use crate::waiting::no_wait;
use apiservice_table::{Change, ChangeFault};
use front_base::NoMemory;
use model_sinks::CoreSetup;
use model_worlds::{Bay, Items, Open, Shared, StepAnswer};
use std::alloc::Global;

fn can_decide(opened: &Open) -> bool
    ensures { result ≡ spec.can_decide opened.now }
{
    no_wait(&opened.waiting) && opened.phase.found && !opened.phase.failed && !opened.phase.decided
}

// Why the rows refuse a change after these, if they do.
fn refusal_after(
    alloc: Global,
    setup: &CoreSetup,
    changes: &[Change],
    change: &Change,
) -> Result<Option<ChangeFault>, NoMemory>
    ensures { IfOk result (λ fault.
        fault ≡ table.refusal (table.after setup.now.opening changes.now) change.now) }
{
    let mut table = table_after(alloc, setup.opening(), changes)?;
    match table.apply(alloc, change.copy(alloc)?) {
        Ok(()) => Ok(None),
        Err(ChangeFault::NoMemory) => Err(NoMemory),
        Err(fault) => Ok(Some(fault)),
    }
}

// Adds a change that wasn't refused.
fn add_change(
    alloc: Global,
    changes: &mut Items<Change>,
    change: &Change,
    fault: Option<ChangeFault>,
) -> Result<(), NoMemory>
    ensures ok { OnOk result (changes.new ≡ spec.changes_with changes.old change.now fault) }
    ensures err { OnErr result (changes.new ≡ changes.old) }
{
    match fault {
        Some(_) => Ok(()),
        None => changes.push(change.copy(alloc)?),
    }
}

fn note_decided(current: &mut Option<Open>, seen: u64)
    ensures { current.new ≡ option_map (spec.decided_with seen) current.old }
{
    if let Some(opened) = current {
        opened.exchange.seen = seen;
        opened.phase.decided = true;
    }
}

// Decides the change.
fn decide(
    alloc: Global,
    setup: &CoreSetup,
    shared: &mut Shared,
    change: &Change,
) -> Result<Option<ChangeFault>, NoMemory>
    ensures ok { IfOk result (λ fault.
        (fault ≡ table.refusal (table.after setup.now.opening shared.old.changes) change.now)
        × (shared.new ≡ record shared.old { changes = spec.changes_with shared.old.changes change.now fault })) }
    ensures err { OnErr result (shared.new ≡ shared.old) }
{
    let fault = refusal_after(alloc, setup, shared.changes.as_slice(), change)?;
    match add_change(alloc, &mut shared.changes, change, fault) {
        Ok(()) => Ok(fault),
        Err(fault) => Err(fault),
    }
}

/// The step Change of a bay. One that has no exchange, and one whose exchange asks for no change or can't decide it, are
/// idle.
pub fn change(
    alloc: Global,
    setup: &CoreSetup,
    shared: &mut Shared,
    b: &mut Bay,
) -> Result<StepAnswer, NoMemory>
    ensures ok { IfOk result (λ answer. (keep : Bool → List ℕ → Kept)
        → TurnsTo (spec.in_exchange (spec.changed (setup_of setup.now keep)) shared.old b.old)
        shared.old b.old shared.new b.new answer) }
    ensures err { OnErr result ((shared.new ≡ shared.old) × (b.new ≡ b.old)) }
{
    let Some(opened) = &b.current else {
        return Ok(StepAnswer::Idle);
    };
    let Some(change) = &opened.exchange.asked else {
        return Ok(StepAnswer::Idle);
    };
    if !can_decide(opened) {
        return Ok(StepAnswer::Idle);
    }
    let before = shared.changes.as_slice().len() as u64;
    let fault = decide(alloc, setup, shared, change)?;
    note_decided(&mut b.current, before);
    b.seen = shared.changes.as_slice().len() as u64;
    Ok(StepAnswer::Changed(fault))
}
