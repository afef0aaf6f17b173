// The step Cut: the writer of a sink writes the lines that it took.
ghost use Rattle.std.specs.Prelude.{◌≡◌, ◌≤◌, ◌++◌, ◌∷◌, [], ℕ, Bool, List, length, take, drop, IfOk, OnOk, OnErr};
ghost use Rattle.model_sinks.specs.Fixed.{setup_of};
ghost use Rattle.model_sinks.specs.Running.{DrainsTo, StepsTo};
ghost use Rattle.stage_event.specs.declared.facts.Kept.{Kept};
ghost use Rattle.model_worlds.specs.Steps as spec;
ghost use Rattle.model_worlds.specs.declared.step.Step.TheVariants.{Cut};

use crate::batches::is_over;
use crate::setup::CoreSetup;
use audit_core::Sink;
use front_base::{Line, NoMemory};
use model_worlds::{Items, SinkState, State, StepAnswer, Try, TryTold};
use std::alloc::Global;
use std::mem;
use truncate_backend::{TryAnswer, TryNote};

// All lines, or all but the last where they have too many bytes.
fn cut_count(lines: &[Line], bytes: u64) -> usize
    ensures count { result ≡ spec.cut_count bytes lines.now }
    ensures within { result ≤ length lines.now }
{
    if is_over(lines, bytes) {
        lines.len() - 1
    } else {
        lines.len()
    }
}

fn cut_answer(answer: TryAnswer, count: u32) -> StepAnswer
    ensures { result ≡ spec.cut_answer answer count }
{
    match answer {
        TryAnswer::Done => StepAnswer::Wrote(count),
        TryAnswer::Port | TryAnswer::Refused(_) | TryAnswer::BadAnswer => StepAnswer::Lost(count),
    }
}

// Makes a try of the first so many lines.
fn cut_off(
    pending: &mut Vec<Line>,
    tries: &mut Vec<Try>,
    count: usize,
    note: TryNote,
) -> Result<(), NoMemory>
    requires { count ≤ length pending.old.items }
    ensures pending { OnOk result (pending.new.items ≡ drop count pending.old.items) }
    ensures tries { OnOk result (tries.new.items
        ≡ tries.old.items ++ record { lines = take count pending.old.items; note = note } ∷ []) }
    ensures err { OnErr result ((pending.new.items ≡ pending.old.items) × (tries.new.items ≡ tries.old.items)) }
{
    tries.reserve(1)?;
    let left = pending.split_off(count)?;
    let lines = Items::new(mem::replace(pending, left));
    tries.push_reserved(Try { lines, note });
    Ok(())
}

fn cut_with(
    alloc: Global,
    works: TryTold,
    s: &mut SinkState,
    count: usize,
) -> Result<StepAnswer, NoMemory>
    requires { count ≤ length s.old.pending }
    ensures ok { IfOk result (λ answer.
        spec.cut_with works s.old count ≡ record { sink = s.new; answer = answer }) }
    ensures err { OnErr result (s.new ≡ s.old) }
{
    let Ok(lines) = u32::try_from(count) else {
        return Err(NoMemory);
    };
    let note = TryNote {
        lines,
        sent: works.sent,
        answer: works.answer,
    };
    let mut pending = s.pending.take_all(alloc);
    let mut tries = s.tries.take_all(alloc);
    let cut = cut_off(&mut pending, &mut tries, count, note);
    s.pending = Items::new(pending);
    s.tries = Items::new(tries);
    match cut {
        Ok(()) => Ok(cut_answer(works.answer, lines)),
        Err(fault) => Err(fault),
    }
}

fn cut_lines(
    alloc: Global,
    setup: &CoreSetup,
    works: TryTold,
    s: &mut SinkState,
) -> Result<StepAnswer, NoMemory>
    ensures ok { IfOk result (λ answer. (keep : Bool → List ℕ → Kept)
        → DrainsTo (spec.cut_lines (setup_of setup.now keep) works s.old) s.old s.new answer) }
    ensures err { OnErr result (s.new ≡ s.old) }
{
    let pending = s.pending.as_slice();
    if pending.is_empty() {
        return Ok(StepAnswer::Idle);
    }
    let count = cut_count(pending, setup.limits.bytes);
    cut_with(alloc, works, s, count)
}

/// The step Cut. A sink of whose buffer nothing was taken leaves it idle. A try of 2^32 lines or more, which no limit
/// allows, counts as a lack of memory.
pub fn cut(
    alloc: Global,
    setup: &CoreSetup,
    state: &mut State,
    sink: Sink,
    works: TryTold,
) -> Result<StepAnswer, NoMemory>
    ensures ok { IfOk result (StepsTo setup.now state.old (Cut sink works) state.new) }
    ensures err { OnErr result (state.new ≡ state.old) }
{
    match sink {
        Sink::Log => cut_lines(alloc, setup, works, &mut state.shared.log),
        Sink::Webhook => cut_lines(alloc, setup, works, &mut state.shared.hook),
    }
}
