ghost use Rattle.std.specs.Prelude.{◌≡◌, ◌≤◌};
ghost use Rattle.front_base.specs.declared.audit_id.TheConstants.{MOST_REQUESTS};
ghost use Rattle.front_ports.specs.Cause.{Rose};
ghost use Rattle.check_command.specs.Checks as spec;

use crate::next::{Next, check_next};
use audit_check::{Checker, LineFault};
use front_base::MOST_REQUESTS;
use front_ports::Source;
use log_lines::LineBuffer;
use log_summary::Watch;
use policy_rules::Policy;
use std::alloc::Global;

/// Why no more lines of a log conform.
#[derive(Clone, Copy, Debug, PartialEq, Eq)]
pub enum CheckEnd {
    /// The log ends there.
    Done,
    /// The next line doesn't conform, or has too many bytes, which is a fault of form.
    Refused(LineFault),
    /// The log ends within the next line.
    Cut,
    /// The input could not be read.
    ReadFault,
    /// There is more, and 2^48 lines conform.
    NumbersSpent,
    NoMemory,
}

/// How far a log conforms.
#[derive(Clone, Copy, Debug, PartialEq, Eq)]
pub struct Checked {
    /// How many lines conform, from the first one on.
    pub lines: u64,
    pub end: CheckEnd,
}

// Why a check stops that looks no further than to the first line that doesn't conform.
fn stop_of(next: Next) -> Option<CheckEnd>
    ensures { result ≡ spec.stop_of next }
{
    match next {
        Next::Accepted => None,
        Next::Refused { length: _, why } => Some(CheckEnd::Refused(why)),
        Next::End(end) => Some(end),
    }
}

/// Checks the lines of a log, each ended by a line feed, against a policy: up to the first one that doesn't conform, or to the end of the
/// input. Of an input that tells nothing the contract says that some bytes were read of which this holds. `watch` is shown each event that is
/// accepted, and one more where memory runs out as it is accepted.
pub fn check_log<S: Source, W: Watch>(
    alloc: Global,
    policy: Policy,
    input: &mut S,
    watch: &mut W,
) -> Checked
    ensures checks { spec.Checks policy (S.left input.old) (S.left input.new)
        (Rose (S.read_faults input.old) (S.read_faults input.new)) result.lines result.end }
    ensures later { S.read_faults input.old ≤ S.read_faults input.new }
    ensures told { spec.KeepsCount (S.read_faults input.old) (S.read_faults input.new) result.end }
{
    let Ok(mut buffer) = LineBuffer::new(alloc) else {
        drop(policy);
        return Checked {
            lines: 0,
            end: CheckEnd::NoMemory,
        };
    };
    let mut checker = Checker::start(alloc, policy);
    let mut lines = 0;
    'checking: loop {
        let spent = lines == MOST_REQUESTS;
        let next = check_next(alloc, input, &mut buffer, &mut checker, spent, watch);
        match stop_of(next) {
            None => lines += 1,
            Some(end) => {
                drop(checker);
                drop(buffer);
                return Checked { lines, end };
            }
        }
    }
}
