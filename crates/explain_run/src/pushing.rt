// The lines of a request's events, stage by stage, and how many of them are too large to be written.
ghost use Rattle.std.specs.Prelude.{◌≡◌, ◌≤◌, ◌++◌, IfOk, OnErr, length};
ghost use Rattle.audit_core.specs.Owed.{Extends, owed};
ghost use Rattle.explain_run.specs.Pushing as spec;

use audit_core::{Answered, LineForm, push_owed};
use front_base::{Level, NoMemory, Stage};
use policy_rules::Omit;
use std::alloc::Global;

// The stages that are left out, and all but this one.
fn only(omit: Omit, stage: Stage) -> Omit
    ensures { result ≡ spec.only omit stage }
{
    let mut all = Omit {
        received: true,
        started: true,
        complete: true,
    };
    match stage {
        Stage::RequestReceived => all.received = omit.received,
        Stage::ResponseStarted => all.started = omit.started,
        Stage::ResponseComplete => all.complete = omit.complete,
        Stage::Panic => {}
    }
    all
}

// How many events are owed at the stages that aren't left out.
fn count_stages(omit: Omit, long: bool) -> u64
    ensures { result ≡ spec.count_stages omit long }
{
    let mut count = 0;
    if !omit.received {
        count += 1;
    }
    if long && !omit.started {
        count += 1;
    }
    if !omit.complete {
        count += 1;
    }
    count
}

fn count_owed(answered: &Answered) -> u64
    ensures { result ≡ length (owed answered.now.decision answered.now.facts) }
{
    match answered.decision.level {
        Level::None => 0,
        _ => count_stages(
            answered.decision.omit,
            answered.facts.info.is_long_running(),
        ),
    }
}

// Adds the line of the event at this stage, if one is owed there, and counts it if it is too large. These stages are
// left out otherwise.
fn push_stage(
    alloc: Global,
    form: LineForm,
    omit: Omit,
    stage: Stage,
    answered: &mut Answered,
    lines: &mut Vec<u8>,
) -> Result<u64, NoMemory>
    ensures ok { IfOk result (λ n. spec.Pushes form.most form.end (spec.owed_only omit stage answered.old)
        lines.old.items lines.new.items n) }
    ensures few { IfOk result (λ n. n ≤ 1) }
    ensures kept { OnErr result (lines.new.items ≡ lines.old.items) }
    ensures same { answered.new ≡ spec.with_omit (spec.only omit stage) answered.old }
{
    answered.decision.omit = only(omit, stage);
    let start = lines.len();
    push_owed(alloc, answered, form, lines)?;
    if lines.len() == start {
        Ok(count_owed(answered))
    } else {
        Ok(0)
    }
}

fn push_stages(
    alloc: Global,
    form: LineForm,
    answered: &mut Answered,
    lines: &mut Vec<u8>,
) -> Result<u64, NoMemory>
    ensures ok { IfOk result (λ n. spec.Pushes form.most form.end (owed answered.old.decision answered.old.facts)
        lines.old.items lines.new.items n) }
    ensures few { IfOk result (λ n. n ≤ 3) }
    ensures err { OnErr result (Extends lines.old.items lines.new.items) }
{
    let omit = answered.decision.omit;
    let received = push_stage(alloc, form, omit, Stage::RequestReceived, answered, lines)?;
    let started = push_stage(alloc, form, omit, Stage::ResponseStarted, answered, lines)?;
    let complete = push_stage(alloc, form, omit, Stage::ResponseComplete, answered, lines)?;
    Ok(received + started + complete)
}

/// Adds the lines of the events that a request owes, and counts those that are too large for one. Where memory runs out,
/// nothing is added.
pub fn push_lines(
    alloc: Global,
    form: LineForm,
    answered: &mut Answered,
    lines: &mut Vec<u8>,
) -> Result<u64, NoMemory>
    ensures ok { IfOk result (λ n. spec.Pushes form.most form.end (owed answered.old.decision answered.old.facts)
        lines.old.items lines.new.items n) }
    ensures few { IfOk result (λ n. n ≤ 3) }
    ensures kept { OnErr result (lines.new.items ≡ lines.old.items) }
{
    let length = lines.len();
    match push_stages(alloc, form, answered, lines) {
        Ok(count) => Ok(count),
        Err(fault) => {
            lines.truncate(length);
            Err(fault)
        }
    }
}
