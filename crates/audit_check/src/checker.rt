ghost use Rattle.std.specs.Prelude.{◌≡◌, ◌∷◌, [], ◌++◌, List, ℕ, OnOk, OnErr};
ghost use Rattle.policy_rules.specs.declared.policy.Policy.{Policy};
ghost use Rattle.audit_check.specs.Agreement.{info_of};
ghost use Rattle.audit_check.specs.Conforms as spec;

use crate::decided::is_decided;
use crate::fault::LineFault;
use crate::place::{info_of, is_in_place};
use crate::seen::Seen;
use audit_reader::{read_event, reads_back};
use front_base::{AuditId, Info, Stage};
use log_summary::Watch;
use policy_rules::{Policy, decide};
use stage_event::Event;
use std::alloc::Global;
use std::marker::Model;

/// Checks the lines of an audit log one after another.
#[derive(Drop)]
pub struct Checker {
    policy: Policy,
    seen: Seen,
}

impl Model for Checker {
    ghost use Rattle.audit_check.specs.Seen as told;

    ghost Value = { told.Checked };

    ghost view = { λ c. record { policy = c.policy; seen = c.seen } };
}

// Which line of which request it is.
#[derive(Clone, Copy)]
struct Mark {
    id: AuditId,
    stage: Stage,
}

fn order_of(last: Option<Stage>, stage: Stage) -> Result<(), LineFault>
    ensures { spec.Orders last stage result }
{
    match last {
        None => Ok(()),
        Some(before) => {
            if before < stage {
                Ok(())
            } else {
                Err(LineFault::Stage { before })
            }
        }
    }
}

// How an event is judged, given what its request asked for.
fn judge_by(
    alloc: Global,
    policy: &Policy,
    seen: &Seen,
    event: &Event,
    info: &Info,
) -> Result<(), LineFault>
    ensures { spec.JudgesEvent policy.now seen.now info.now event.now result }
{
    if !is_in_place(alloc, event, info)? {
        return Err(LineFault::Place);
    }
    let first = decide(policy, &event.user, info);
    if !is_decided(first, event) {
        return Err(LineFault::Level { first });
    }
    order_of(seen.last(event.id), event.stage)
}

fn judge(alloc: Global, policy: &Policy, seen: &Seen, event: &Event) -> Result<(), LineFault>
    ensures { spec.JudgesEvent policy.now seen.now (info_of event.now) event.now result }
{
    let info = info_of(alloc, event)?;
    let judged = judge_by(alloc, policy, seen, event, &info);
    drop(info);
    judged
}

// Shows an event that passes, if it is looked at.
fn show<W: Watch>(passes: bool, seen: &Seen, event: &Event, watch: &mut W) {
    if passes && watch.is_watching() {
        watch.accepted(event, seen.last(event.id).is_none());
    }
}

// The mark of a line that conforms, which is shown.
fn mark_of<W: Watch>(
    alloc: Global,
    policy: &Policy,
    seen: &Seen,
    text: &[u8],
    watch: &mut W,
) -> Result<Mark, LineFault>
    ensures { spec.Marks policy.now seen.now text.now result }
{
    let event = read_event(alloc, text)?;
    let mark = Mark {
        id: event.id,
        stage: event.stage,
    };
    let judged = judge(alloc, policy, seen, &event);
    show(judged.is_ok(), seen, &event, watch);
    drop(event);
    match judged {
        Ok(()) => Ok(mark),
        Err(fault) => Err(fault),
    }
}

impl Checker {
    /// A checker that has accepted no line yet.
    pub fn start(alloc: Global, policy: Policy) -> Checker
        ensures { spec.HasAccepted policy [] result }
    {
        Checker {
            policy,
            seen: Seen::nothing(alloc),
        }
    }

    /// Whether the line, without its line feed, conforms to the policy after those that were accepted. It is then
    /// accepted too. A line that is refused, also for want of memory, leaves the checker as it was. `watch` is shown the event of a
    /// line that conforms, also where memory runs out as it is accepted; no clause says what it is shown.
    pub fn line<W: Watch>(
        &mut self,
        alloc: Global,
        text: &[u8],
        watch: &mut W,
    ) -> Result<(), LineFault>
        ensures judged { (policy : Policy) (before : List (List ℕ)) → spec.HasAccepted policy before self.old
            → spec.Judges policy before text.now result }
        ensures accepted { OnOk result ((policy : Policy) (before : List (List ℕ)) → spec.HasAccepted policy before self.old
            → spec.HasAccepted policy (before ++ text.now ∷ []) self.new) }
        ensures refused { OnErr result (self.new ≡ self.old) }
    {
        reads_back();
        let mark = mark_of(alloc, &self.policy, &self.seen, text, watch)?;
        self.seen.note(mark.id, mark.stage)?;
        Ok(())
    }
}
