// A whole log, whichever of its lines conform.
ghost use Rattle.std.specs.Prelude.{◌≡◌, ◌≤◌, ◌<◌, ◌+◌, ◌++◌, ◌∷◌, [], false, ℕ, List, IfNone, IfSome, OnErr, OnOk, drop, length};
ghost use Rattle.audit_check.specs.Conforms.{HasAccepted};
ghost use Rattle.check_command.specs.Checks.{HasMore, KeepsCount};
ghost use Rattle.check_command.specs.Reviews as spec;
ghost use Rattle.check_command.specs.declared.bad_lines.BadLine.{BadLine};
ghost use Rattle.front_base.specs.declared.audit_id.TheConstants.{MOST_REQUESTS};
ghost use Rattle.front_base.specs.declared.line.TheConstants.{MOST_LINE_BYTES};
ghost use Rattle.front_ports.specs.Cause.{Rose};
ghost use Rattle.policy_rules.specs.declared.policy.Policy.{Policy};

use crate::bad_lines::{BadLine, BadLines};
use crate::check::CheckEnd;
use crate::next::{Next, check_next};
use audit_check::{Checker, LineFault};
use front_base::{MOST_REQUESTS, NoMemory};
use front_ports::Source;
use log_lines::LineBuffer;
use log_summary::Watch;
use policy_rules::Policy;
use std::alloc::Global;

/// What a whole log comes to.
#[derive(Debug, Drop)]
pub struct Reviewed {
    /// The lines that don't conform. One within which the log ends, or that has too many bytes, is the last of them.
    pub bad: BadLines,
    /// How many whole lines the log has. A line with too many bytes isn't among them, and nothing after it is read.
    pub lines: u64,
    pub end: CheckEnd,
}

// Notes a line of so many bytes that doesn't conform, and passes it.
fn pass_bad(
    buffer: &mut LineBuffer,
    size: usize,
    bad: &mut BadLines,
    line: BadLine,
) -> Result<(), NoMemory>
    requires held { size + 1 ≤ length buffer.old }
    requires short { size ≤ MOST_LINE_BYTES }
    requires few { bad.old.count < MOST_REQUESTS }
    ensures passes { OnOk result (buffer.new ≡ drop (size + 1) buffer.old) }
    ensures notes { OnOk result ((earlier : List BadLine) → spec.Lists bad.old earlier → spec.Lists bad.new (earlier ++ line ∷ [])) }
    ensures count { OnOk result (bad.new.count ≡ bad.old.count + 1) }
    ensures kept { OnErr result (spec.KeepsList bad.old bad.new) }
{
    bad.add(line)?;
    buffer.skip(size + 1);
    Ok(())
}

// Reads one more line and judges it, after so many; nothing is answered where it was passed. `spent` says that no more may be.
fn review_next<S: Source, W: Watch>(
    alloc: Global,
    input: &mut S,
    buffer: &mut LineBuffer,
    checker: &mut Checker,
    bad: &mut BadLines,
    lines: u64,
    spent: bool,
    watch: &mut W,
) -> Option<CheckEnd>
    requires few { lines ≤ MOST_REQUESTS }
    requires fewer { bad.old.count ≤ lines }
    requires spent { spent ≡ false → lines < MOST_REQUESTS }
    ensures reviews { (policy : Policy) (before : List (List ℕ)) (earlier : List BadLine) → HasAccepted policy before checker.old
        → spec.Lists bad.old earlier → spec.ReviewsNext policy before earlier lines (S.left input.old) (S.left input.new) buffer.old buffer.new spent
        (Rose (S.read_faults input.old) (S.read_faults input.new)) checker.new bad.new result }
    ensures fewer { IfNone result ((lines < MOST_REQUESTS) × (bad.new.count ≤ lines + 1)) }
    ensures more { IfSome result (λ end. HasMore end ((lines < MOST_REQUESTS) × (bad.new.count ≤ lines))) }
    ensures later { S.read_faults input.old ≤ S.read_faults input.new }
    ensures calm { IfNone result (S.read_faults input.new ≡ S.read_faults input.old) }
    ensures told { IfSome result (KeepsCount (S.read_faults input.old) (S.read_faults input.new)) }
{
    match check_next(alloc, input, buffer, checker, spent, watch) {
        Next::Accepted => None,
        Next::Refused { length, why } => {
            let number = lines + 1;
            match pass_bad(buffer, length, bad, BadLine { number, why }) {
                Ok(()) => None,
                Err(_) => Some(CheckEnd::NoMemory),
            }
        }
        Next::End(end) => Some(end),
    }
}

// A log that ends with one more line, whose form is wrong.
fn with_last(mut bad: BadLines, lines: u64, end: CheckEnd) -> Reviewed
    requires few { lines < MOST_REQUESTS }
    requires fewer { bad.count ≤ lines }
    ensures ends { spec.EndsWithLast bad lines end result }
    ensures lines { result.lines ≡ lines }
{
    let number = lines + 1;
    match bad.add(BadLine {
        number,
        why: LineFault::Form,
    }) {
        Ok(()) => Reviewed { bad, lines, end },
        Err(_) => Reviewed {
            bad,
            lines,
            end: CheckEnd::NoMemory,
        },
    }
}

// Where no line was passed any more.
#[tactic(auto, using(crate::proofs::ReviewLemmas::keeps_same))]
fn ended(bad: BadLines, lines: u64, end: CheckEnd) -> Reviewed
    requires { HasMore end ((lines < MOST_REQUESTS) × (bad.count ≤ lines)) }
    ensures ends { spec.EndsAs bad lines end result }
    ensures lines { result.lines ≡ lines }
{
    match end {
        CheckEnd::Refused(_) | CheckEnd::Cut => with_last(bad, lines, end),
        CheckEnd::Done | CheckEnd::ReadFault | CheckEnd::NumbersSpent | CheckEnd::NoMemory => {
            Reviewed { bad, lines, end }
        }
    }
}

/// Judges each line of a log, ended by a line feed, against a policy, to the end of the input. A line that doesn't conform is noted, and is
/// as if it weren't there for those after it. Of an input that tells nothing the contract says that some bytes were read of which this
/// holds. `watch` is shown each event that is accepted, and one more where memory runs out as it is accepted.
pub fn review_log<S: Source, W: Watch>(
    alloc: Global,
    policy: Policy,
    input: &mut S,
    watch: &mut W,
) -> Reviewed
    ensures reviews { spec.Reviews policy (S.left input.old) (S.left input.new)
        (Rose (S.read_faults input.old) (S.read_faults input.new)) result.lines result.bad result.end }
    ensures later { S.read_faults input.old ≤ S.read_faults input.new }
    ensures told { KeepsCount (S.read_faults input.old) (S.read_faults input.new) result.end }
{
    let mut bad = BadLines::none(alloc);
    let Ok(mut buffer) = LineBuffer::new(alloc) else {
        drop(policy);
        return Reviewed {
            bad,
            lines: 0,
            end: CheckEnd::NoMemory,
        };
    };
    let mut checker = Checker::start(alloc, policy);
    let mut lines = 0;
    'reviewing: loop {
        let spent = lines == MOST_REQUESTS;
        match review_next(
            alloc,
            input,
            &mut buffer,
            &mut checker,
            &mut bad,
            lines,
            spent,
            watch,
        ) {
            None => lines += 1,
            Some(end) => {
                drop(checker);
                drop(buffer);
                return ended(bad, lines, end);
            }
        }
    }
}
