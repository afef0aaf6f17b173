// The step Find: a bay looks at the table, as it was after so many changes.
ghost use Rattle.std.specs.Prelude.{◌≡◌, ℕ, Bool, List, IfOk, OnErr, option_map};
ghost use Rattle.apiservice_table.specs.Changes.{after};
ghost use Rattle.audit_core.specs.Routing.{row_for};
ghost use Rattle.model_sinks.specs.Fixed.{setup_of};
ghost use Rattle.model_sinks.specs.Running.{TurnsTo};
ghost use Rattle.stage_event.specs.declared.facts.Kept.{Kept};
ghost use Rattle.model_worlds.specs.Steps as spec;

use crate::tables::table_after;
use crate::waiting::no_wait;
use apiservice_rows::Row;
use apiservice_table::Change;
use audit_core::Errand;
use front_base::NoMemory;
use model_sinks::CoreSetup;
use model_worlds::{Bay, Open, Shared, StepAnswer};
use std::alloc::Global;

fn can_find(seen: u64, shared: &Shared, b: &Bay, opened: &Open) -> bool
    ensures { result ≡ spec.can_find seen shared.now b.now opened.now }
{
    no_wait(&opened.waiting)
        && !opened.phase.found
        && !opened.phase.failed
        && b.seen <= seen
        && seen <= shared.changes.as_slice().len() as u64
}

// The row that decides on a request after these changes, where it is for an API.
fn row_after(
    alloc: Global,
    setup: &CoreSetup,
    changes: &[Change],
    errand: &Errand,
) -> Result<Option<Row>, NoMemory>
    ensures { IfOk result (λ row. row ≡ row_for (after setup.now.opening changes.now) errand.now) }
{
    let Errand::Route { group, version } = errand else {
        return Ok(None);
    };
    let table = table_after(alloc, setup.opening(), changes)?;
    match table.find(group.as_str(), version.as_str()) {
        Some(row) => Ok(Some(row.copy(alloc)?)),
        None => Ok(None),
    }
}

fn note_found(current: &mut Option<Open>, seen: u64)
    ensures { current.new ≡ option_map (spec.found_with seen) current.old }
{
    if let Some(opened) = current {
        opened.exchange.seen = seen;
        opened.phase.found = true;
    }
}

/// The step Find of a bay. One that has no exchange, and one whose exchange can't look at the table so, are idle.
pub fn find(
    alloc: Global,
    setup: &CoreSetup,
    seen: u64,
    shared: &Shared,
    b: &mut Bay,
) -> Result<StepAnswer, NoMemory>
    ensures ok { IfOk result (λ answer. (keep : Bool → List ℕ → Kept)
        → TurnsTo (spec.in_exchange (spec.found (setup_of setup.now keep) seen) shared.now b.old)
        shared.now b.old shared.now b.new answer) }
    ensures err { OnErr result (b.new ≡ b.old) }
{
    let Some(opened) = &b.current else {
        return Ok(StepAnswer::Idle);
    };
    if !can_find(seen, shared, b, opened) {
        return Ok(StepAnswer::Idle);
    }
    let changes = &shared.changes.as_slice()[..seen as usize];
    let row = row_after(alloc, setup, changes, &opened.exchange.errand)?;
    note_found(&mut b.current, seen);
    b.seen = seen;
    Ok(StepAnswer::Found(row))
}
