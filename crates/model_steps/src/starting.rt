// The state before any step.
ghost use Rattle.std.specs.Prelude.{◌≡◌, [], replicate, IfOk};
ghost use Rattle.model_worlds.specs.Steps as spec;

use front_base::{Line, NoMemory};
use model_worlds::{Bay, Items, Shared, SinkState, State, Try};
use std::alloc::Global;

#[tactic(auto, using(crate::proofs::StartLemmas::one_more))]
fn lanes<T: Drop>(alloc: Global, bays: u16) -> Result<Items<Items<T>>, NoMemory>
    ensures { IfOk result (λ lanes. lanes ≡ replicate bays []) }
{
    let mut lanes = Vec::new(alloc);
    for bay in 0..bays {
        lanes.push(Items::new(Vec::new(alloc)))?;
    }
    Ok(Items::new(lanes))
}

#[tactic(auto, using(crate::proofs::StartLemmas::one_more))]
fn counts(alloc: Global, bays: u16) -> Result<Items<u64>, NoMemory>
    ensures { IfOk result (λ counts. counts ≡ replicate bays 0) }
{
    let mut counts = Vec::new(alloc);
    for bay in 0..bays {
        counts.push(0)?;
    }
    Ok(Items::new(counts))
}

fn start_sink(alloc: Global, bays: u16) -> Result<SinkState, NoMemory>
    ensures { IfOk result (λ sink. sink ≡ spec.start_sink bays) }
{
    let accepted = lanes::<Line>(alloc, bays)?;
    let fulls = counts(alloc, bays)?;
    let own_tries = lanes::<Try>(alloc, bays)?;
    Ok(SinkState {
        contents: Items::new(Vec::new(alloc)),
        taken: Items::new(Vec::new(alloc)),
        pending: Items::new(Vec::new(alloc)),
        tries: Items::new(Vec::new(alloc)),
        accepted,
        fulls,
        own_tries,
    })
}

fn start_bay(alloc: Global) -> Bay
    ensures { result ≡ spec.start_bay }
{
    Bay {
        number: 0,
        seen: 0,
        closed: Items::new(Vec::new(alloc)),
        current: None,
    }
}

#[tactic(auto, using(crate::proofs::StartLemmas::one_more))]
fn start_bays(alloc: Global, bays: u16) -> Result<Items<Bay>, NoMemory>
    ensures { IfOk result (λ own. own ≡ replicate bays spec.start_bay) }
{
    let mut own = Vec::new(alloc);
    for bay in 0..bays {
        own.push(start_bay(alloc))?;
    }
    Ok(Items::new(own))
}

pub fn start_state(alloc: Global, bays: u16) -> Result<State, NoMemory>
    ensures { IfOk result (λ state. state ≡ spec.start bays) }
{
    let log = start_sink(alloc, bays)?;
    let hook = start_sink(alloc, bays)?;
    let bays = start_bays(alloc, bays)?;
    let changes = Items::new(Vec::new(alloc));
    let shared = Shared { changes, log, hook };
    Ok(State { shared, bays })
}
