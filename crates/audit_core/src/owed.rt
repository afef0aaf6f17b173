// The audit lines that an exchange owes.
ghost use Rattle.std.specs.Prelude.{◌≡◌, ◌≢◌, ◌++◌, OnErr, OnOk, nat_le, length, if◌then◌else◌};
ghost use Rattle.truncate_backend.specs.Fits.{fitted, fitted_stripped};
ghost use Rattle.truncate_backend.specs.declared.fitted.Fit.TheVariants.{Stripped, TooLarge};
ghost use Rattle.audit_core.specs.Owed as spec;

use crate::answered::Answered;
use event_text::{objects_exceed, push_line, stripped_line};
use front_base::{Level, NoMemory, Stage};
use policy_rules::Omit;
use stage_event::{Event, event_at};
use std::alloc::Global;

/// How lines are written.
#[derive(Clone, Copy, Debug)]
pub struct LineForm {
    /// How many bytes a line may have.
    pub most: u64,
    /// The byte after each line.
    pub end: u8,
}

/// Whether the stage is left out.
pub fn omits(omit: Omit, stage: Stage) -> bool
    ensures { result ≡ spec.omits omit stage }
{
    match stage {
        Stage::RequestReceived => omit.received,
        Stage::ResponseStarted => omit.started,
        Stage::ResponseComplete => omit.complete,
        Stage::Panic => true,
    }
}

// Adds a line and its end, if it fits.
fn push_if_fits(line: &[u8], form: LineForm, out: &mut Vec<u8>) -> Result<(), NoMemory>
    ensures ok { OnOk result (out.new.items
        ≡ out.old.items ++ spec.ended form.end (spec.lines_in
        (if nat_le (length line.now) form.most then Stripped line.now else TooLarge (length line.now)))) }
    ensures err { OnErr result (spec.Extends out.old.items out.new.items) }
{
    if line.len() as u64 > form.most {
        return Ok(());
    }
    out.extend_from_slice(line)?;
    out.push(form.end)?;
    Ok(())
}

// Adds the line of the event without its objects, if it fits.
fn push_stripped(
    alloc: Global,
    event: &Event,
    form: LineForm,
    out: &mut Vec<u8>,
) -> Result<(), NoMemory>
    ensures ok { OnOk result (out.new.items
        ≡ out.old.items ++ spec.ended form.end (spec.lines_in (fitted_stripped event.now form.most))) }
    ensures err { OnErr result (spec.Extends out.old.items out.new.items) }
{
    let line = stripped_line(alloc, event)?;
    push_if_fits(line.as_slice(), form, out)
}

// Adds the line of an event as it fits. An event whose objects alone are too long isn't written with them first.
fn push_fitted(
    alloc: Global,
    event: &Event,
    form: LineForm,
    out: &mut Vec<u8>,
) -> Result<(), NoMemory>
    ensures ok { OnOk result (out.new.items
        ≡ out.old.items ++ spec.ended form.end (spec.lines_in (fitted event.now form.most))) }
    ensures err { OnErr result (spec.Extends out.old.items out.new.items) }
{
    if objects_exceed(event, form.most) {
        return push_stripped(alloc, event, form, out);
    }
    let start = out.len();
    push_line(out, event)?;
    if (out.len() - start) as u64 <= form.most {
        out.push(form.end)?;
        return Ok(());
    }
    out.truncate(start);
    push_stripped(alloc, event, form, out)
}

// Adds the line of a stage, unless it is left out.
fn push_stage(
    alloc: Global,
    stage: Stage,
    level: Level,
    answered: &Answered,
    form: LineForm,
    out: &mut Vec<u8>,
) -> Result<(), NoMemory>
    requires level { level ≢ Level.None }
    ensures ok { OnOk result (out.new.items ≡ out.old.items
        ++ spec.stage_text form.most form.end level answered.now.decision.omit answered.now.facts stage) }
    ensures err { OnErr result (spec.Extends out.old.items out.new.items) }
{
    if omits(answered.decision.omit, stage) {
        return Ok(());
    }
    let event = event_at(alloc, stage, level, &answered.facts)?;
    let pushed = push_fitted(alloc, &event, form, out);
    drop(event);
    pushed
}

// Adds the line of the reply's start, where the request is long-running.
fn push_started(
    alloc: Global,
    level: Level,
    answered: &Answered,
    form: LineForm,
    out: &mut Vec<u8>,
) -> Result<(), NoMemory>
    requires level { level ≢ Level.None }
    ensures ok { OnOk result (out.new.items ≡ out.old.items
        ++ spec.started_text form.most form.end level answered.now.decision.omit answered.now.facts) }
    ensures err { OnErr result (spec.Extends out.old.items out.new.items) }
{
    if !answered.facts.info.is_long_running() {
        return Ok(());
    }
    push_stage(alloc, Stage::ResponseStarted, level, answered, form, out)
}

// Adds the lines of all stages.
fn push_stages(
    alloc: Global,
    level: Level,
    answered: &Answered,
    form: LineForm,
    out: &mut Vec<u8>,
) -> Result<(), NoMemory>
    requires level { level ≢ Level.None }
    ensures ok { OnOk result (out.new.items ≡ out.old.items
        ++ spec.ended form.end
        (spec.fitted_lines form.most (spec.events_at level answered.now.decision.omit answered.now.facts))) }
    ensures err { OnErr result (spec.Extends out.old.items out.new.items) }
{
    push_stage(alloc, Stage::RequestReceived, level, answered, form, out)?;
    push_started(alloc, level, answered, form, out)?;
    push_stage(alloc, Stage::ResponseComplete, level, answered, form, out)
}

fn push_all(
    alloc: Global,
    answered: &Answered,
    form: LineForm,
    out: &mut Vec<u8>,
) -> Result<(), NoMemory>
    ensures ok { OnOk result (out.new.items ≡ out.old.items
        ++ spec.ended form.end (spec.fitted_lines form.most (spec.owed answered.now.decision answered.now.facts))) }
    ensures err { OnErr result (spec.Extends out.old.items out.new.items) }
{
    match answered.decision.level {
        Level::None => Ok(()),
        level => push_stages(alloc, level, answered, form, out),
    }
}

/// Writes the lines of the events that a request owes after what is there, each fitted to the most bytes of
/// the form and with its end. Where memory runs out, what is there stays as it was.
pub fn push_owed(
    alloc: Global,
    answered: &Answered,
    form: LineForm,
    out: &mut Vec<u8>,
) -> Result<(), NoMemory>
    ensures ok { OnOk result (out.new.items ≡ out.old.items
        ++ spec.ended form.end (spec.fitted_lines form.most (spec.owed answered.now.decision answered.now.facts))) }
    ensures kept { OnErr result (out.new.items ≡ out.old.items) }
{
    let len = out.len();
    match push_all(alloc, answered, form, out) {
        Ok(()) => Ok(()),
        Err(fault) => {
            out.truncate(len);
            Err(fault)
        }
    }
}
