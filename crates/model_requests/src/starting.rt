// The step Started: a long-running request's reply starts with a status.
ghost use Rattle.std.specs.Prelude.{◌≡◌, ℕ, Bool, List, Some, IfOk, OnOk, OnErr};
ghost use Rattle.model_sinks.specs.Fixed.{setup_of};
ghost use Rattle.model_sinks.specs.Running.{TurnsTo};
ghost use Rattle.stage_event.specs.declared.facts.Kept.{Kept};
ghost use Rattle.model_worlds.specs.Steps as spec;
ghost use Rattle.model_worlds.specs.declared.state.Bay.{Bay};

use crate::answering::{handling, is_proxied, is_ready};
use audit_core::{Handling, LinkNote, status_of};
use front_base::{Level, Moment, NoMemory, Stage};
use model_offers::due;
use model_sinks::CoreSetup;
use model_worlds::{Bay, Open, Shared, StepAnswer};
use std::alloc::Global;

fn starts(handling: &Handling, opened: &Open, status: u16) -> bool
    ensures { result ≡ spec.starts handling.now opened.now status }
{
    opened.exchange.facts.info.is_long_running()
        && opened.phase.started.is_none()
        && (is_proxied(handling) || status == status_of(handling, LinkNote::NotUsed))
}

fn can_start(handling: &Handling, opened: &Open, status: u16) -> bool
    ensures { result ≡ spec.can_start opened.now.exchange.level handling.now opened.now status }
{
    match opened.exchange.level {
        Level::None => false,
        Level::Metadata | Level::Request | Level::RequestResponse => {
            starts(handling, opened, status)
        }
    }
}

// Notes that the reply started.
fn note_started(
    alloc: Global,
    setup: &CoreSetup,
    status: u16,
    moment: Moment,
    opened: &mut Open,
) -> Result<(), NoMemory>
    ensures ok { OnOk result ((keep : Bool → List ℕ → Kept)
        → opened.new ≡ spec.started_with (setup_of setup.now keep) status moment opened.old) }
    ensures err { OnErr result (opened.new ≡ opened.old) }
{
    let before = opened.exchange.facts.status;
    let since = opened.exchange.facts.started;
    opened.exchange.facts.status = status;
    opened.exchange.facts.started = moment;
    let level = opened.exchange.level;
    match due(
        alloc,
        setup,
        Stage::ResponseStarted,
        level,
        &opened.exchange.facts,
    ) {
        Ok(waiting) => {
            opened.waiting = waiting;
            opened.phase.started = Some(status);
            opened.phase.last = moment;
            Ok(())
        }
        Err(fault) => {
            opened.exchange.facts.status = before;
            opened.exchange.facts.started = since;
            Err(fault)
        }
    }
}

fn start_open(
    alloc: Global,
    setup: &CoreSetup,
    status: u16,
    moment: Moment,
    shared: &Shared,
    opened: &mut Open,
) -> Result<StepAnswer, NoMemory>
    ensures ok { IfOk result (λ answer. (keep : Bool → List ℕ → Kept) → (b : Bay)
        → TurnsTo (spec.started (setup_of setup.now keep) status moment shared.now b opened.old)
        shared.now (record b { current = Some opened.old }) shared.now (record b { current = Some opened.new }) answer) }
    ensures err { OnErr result (opened.new ≡ opened.old) }
{
    if !is_ready(opened, moment) {
        return Ok(StepAnswer::Idle);
    }
    let handling = handling(alloc, setup, shared, opened)?;
    if !can_start(&handling, opened, status) {
        return Ok(StepAnswer::Idle);
    }
    match note_started(alloc, setup, status, moment, opened) {
        Ok(()) => Ok(StepAnswer::Noted),
        Err(fault) => Err(fault),
    }
}

/// The step Started of a bay. One that has no exchange, and one whose exchange doesn't run long, can't be answered yet or has
/// started, are idle.
pub fn start(
    alloc: Global,
    setup: &CoreSetup,
    status: u16,
    moment: Moment,
    shared: &Shared,
    b: &mut Bay,
) -> Result<StepAnswer, NoMemory>
    ensures ok { IfOk result (λ answer. (keep : Bool → List ℕ → Kept)
        → TurnsTo (spec.in_exchange (spec.started (setup_of setup.now keep) status moment) shared.now b.old)
        shared.now b.old shared.now b.new answer) }
    ensures err { OnErr result (b.new ≡ b.old) }
{
    match &mut b.current {
        None => Ok(StepAnswer::Idle),
        Some(opened) => start_open(alloc, setup, status, moment, shared, opened),
    }
}
