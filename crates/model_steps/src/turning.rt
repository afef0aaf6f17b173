// The steps of a bay, at its place among the others.
ghost use Rattle.std.specs.Prelude.{◌≡◌, IfOk, OnErr};
ghost use Rattle.model_sinks.specs.Running.{StepsTo};
ghost use Rattle.model_worlds.specs.declared.step.Step.TheVariants as step;

use audit_core::{LinkNote, Sink};
use front_base::{Moment, NoMemory};
use http_edge::Request;
use local_replies::LocalPaths;
use model_sinks::{CoreSetup, turns_are_steps};
use model_worlds::{State, StepAnswer, TryTold};
use stage_event::Kept;
use std::alloc::Global;

pub fn begin(
    alloc: Global,
    setup: &CoreSetup,
    paths: &LocalPaths,
    state: &mut State,
    bay: u16,
    request: &Request,
    peer: [u8; 4],
    moment: Moment,
) -> Result<StepAnswer, NoMemory>
    ensures ok { IfOk result (StepsTo setup.now state.old (step.Begin bay request.now peer moment) state.new) }
    ensures err { OnErr result (state.new ≡ state.old) }
{
    turns_are_steps();
    let place = bay as usize;
    if place >= state.bays.as_slice().len() {
        return Ok(StepAnswer::Idle);
    }
    let own = state.bays.at_mut(place);
    model_requests::begin(alloc, setup, paths, bay, request, peer, moment, own)
}

pub fn find(
    alloc: Global,
    setup: &CoreSetup,
    state: &mut State,
    bay: u16,
    seen: u64,
) -> Result<StepAnswer, NoMemory>
    ensures ok { IfOk result (StepsTo setup.now state.old (step.Find bay seen) state.new) }
    ensures err { OnErr result (state.new ≡ state.old) }
{
    turns_are_steps();
    let place = bay as usize;
    if place >= state.bays.as_slice().len() {
        return Ok(StepAnswer::Idle);
    }
    let own = state.bays.at_mut(place);
    model_offers::find(alloc, setup, seen, &state.shared, own)
}

pub fn change(
    alloc: Global,
    setup: &CoreSetup,
    state: &mut State,
    bay: u16,
) -> Result<StepAnswer, NoMemory>
    ensures ok { IfOk result (StepsTo setup.now state.old (step.Change bay) state.new) }
    ensures err { OnErr result (state.new ≡ state.old) }
{
    turns_are_steps();
    let place = bay as usize;
    if place >= state.bays.as_slice().len() {
        return Ok(StepAnswer::Idle);
    }
    let own = state.bays.at_mut(place);
    model_offers::change(alloc, setup, &mut state.shared, own)
}

pub fn offer(
    alloc: Global,
    setup: &CoreSetup,
    state: &mut State,
    bay: u16,
    sink: Sink,
    works: TryTold,
) -> Result<StepAnswer, NoMemory>
    ensures ok { IfOk result (StepsTo setup.now state.old (step.Offer bay sink works) state.new) }
    ensures err { OnErr result (state.new ≡ state.old) }
{
    turns_are_steps();
    let place = bay as usize;
    if place >= state.bays.as_slice().len() {
        return Ok(StepAnswer::Idle);
    }
    let own = state.bays.at_mut(place);
    model_offers::offer(alloc, setup, bay, sink, works, &mut state.shared, own)
}

pub fn start(
    alloc: Global,
    setup: &CoreSetup,
    state: &mut State,
    bay: u16,
    status: u16,
    moment: Moment,
) -> Result<StepAnswer, NoMemory>
    ensures ok { IfOk result (StepsTo setup.now state.old (step.Started bay status moment) state.new) }
    ensures err { OnErr result (state.new ≡ state.old) }
{
    turns_are_steps();
    let place = bay as usize;
    if place >= state.bays.as_slice().len() {
        return Ok(StepAnswer::Idle);
    }
    let own = state.bays.at_mut(place);
    model_requests::start(alloc, setup, status, moment, &state.shared, own)
}

pub fn finish(
    alloc: Global,
    setup: &CoreSetup,
    state: &mut State,
    bay: u16,
    link: LinkNote,
    reply: Kept,
    moment: Moment,
) -> Result<StepAnswer, NoMemory>
    ensures ok { IfOk result (StepsTo setup.now state.old (step.Finish bay link reply moment) state.new) }
    ensures err { OnErr result (state.new ≡ state.old) }
{
    turns_are_steps();
    let place = bay as usize;
    if place >= state.bays.as_slice().len() {
        return Ok(StepAnswer::Idle);
    }
    let own = state.bays.at_mut(place);
    model_requests::finish(alloc, setup, link, reply, moment, &state.shared, own)
}
