// The step Take: the writer of a sink takes a line from its buffer.
ghost use Rattle.std.specs.Prelude.{◌≡◌, ◌<◌, ◌++◌, ◌∷◌, [], ℕ, Bool, List, length, take, drop, IfOk, OnOk, OnErr};
ghost use Rattle.model_sinks.specs.Fixed.{setup_of};
ghost use Rattle.model_sinks.specs.Running.{DrainsTo, StepsTo};
ghost use Rattle.stage_event.specs.declared.facts.Kept.{Kept};
ghost use Rattle.model_worlds.specs.Steps as spec;
ghost use Rattle.model_worlds.specs.declared.step.Step.TheVariants.{Take};

use crate::batches::{is_batch, is_over};
use crate::setup::CoreSetup;
use audit_core::Sink;
use front_base::{Line, NoMemory};
use model_worlds::{Items, SinkState, State, StepAnswer};
use std::alloc::Global;

// The batch is not complete.
fn can_take(setup: &CoreSetup, sink: Sink, s: &SinkState) -> bool
    ensures { (keep : Bool → List ℕ → Kept) → result ≡ spec.can_take (setup_of setup.now keep) sink s.now }
{
    is_batch(setup.settings.mode_of(sink))
        && s.pending.as_slice().len() < setup.limits.lines as usize
        && !is_over(s.pending.as_slice(), setup.limits.bytes)
}

// Moves the first line of a buffer to those that were taken, and a copy of it to those that wait for a try.
fn move_front(
    contents: &mut Vec<Line>,
    taken: &mut Vec<Line>,
    pending: &mut Items<Line>,
    copy: Line,
) -> Result<(), NoMemory>
    requires { 0 < length contents.old.items }
    ensures contents { OnOk result (contents.new.items ≡ drop 1 contents.old.items) }
    ensures taken { OnOk result (taken.new.items ≡ taken.old.items ++ take 1 contents.old.items) }
    ensures pending { OnOk result (pending.new ≡ pending.old ++ copy ∷ []) }
    ensures err { OnErr result ((contents.new.items ≡ contents.old.items) × (taken.new.items ≡ taken.old.items)
        × (pending.new ≡ pending.old)) }
{
    taken.reserve(1)?;
    pending.push(copy)?;
    taken.push_reserved(contents.remove(0));
    Ok(())
}

fn take_front(alloc: Global, s: &mut SinkState) -> Result<StepAnswer, NoMemory>
    ensures ok { IfOk result (λ answer.
        spec.take_front s.old s.old.contents ≡ record { sink = s.new; answer = answer }) }
    ensures err { OnErr result (s.new ≡ s.old) }
{
    let Some(first) = s.contents.as_slice().first() else {
        return Ok(StepAnswer::Took(None));
    };
    let copy = first.copy(alloc)?;
    let answer = first.copy(alloc)?;
    let mut contents = s.contents.take_all(alloc);
    let mut taken = s.taken.take_all(alloc);
    let moved = move_front(&mut contents, &mut taken, &mut s.pending, copy);
    s.contents = Items::new(contents);
    s.taken = Items::new(taken);
    match moved {
        Ok(()) => Ok(StepAnswer::Took(Some(answer))),
        Err(fault) => Err(fault),
    }
}

fn take_line(
    alloc: Global,
    setup: &CoreSetup,
    sink: Sink,
    s: &mut SinkState,
) -> Result<StepAnswer, NoMemory>
    ensures ok { IfOk result (λ answer. (keep : Bool → List ℕ → Kept)
        → DrainsTo (spec.take_line (setup_of setup.now keep) sink s.old) s.old s.new answer) }
    ensures err { OnErr result (s.new ≡ s.old) }
{
    if can_take(setup, sink, s) {
        take_front(alloc, s)
    } else {
        Ok(StepAnswer::Idle)
    }
}

/// The step Take. A sink that isn't written in batches, and one whose batch is complete, leave it idle.
pub fn take(
    alloc: Global,
    setup: &CoreSetup,
    state: &mut State,
    sink: Sink,
) -> Result<StepAnswer, NoMemory>
    ensures ok { IfOk result (StepsTo setup.now state.old (Take sink) state.new) }
    ensures err { OnErr result (state.new ≡ state.old) }
{
    match sink {
        Sink::Log => take_line(alloc, setup, sink, &mut state.shared.log),
        Sink::Webhook => take_line(alloc, setup, sink, &mut state.shared.hook),
    }
}
