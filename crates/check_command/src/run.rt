ghost use Rattle.std.specs.Prelude.{◌≡◌, ◌≤◌, None, map, string_bytes};
ghost use Rattle.check_command.specs.Run as spec;
ghost use Rattle.front_ports.specs.FileMap.{KeepsFiles};
ghost use Rattle.policy_rules.specs.declared.policy.Policy.{Policy};
ghost use Rattle.command_ends.specs.Ports.{files_port, port};

use crate::answer::{answer_text, review_text};
use crate::bad_lines::BadLine;
use crate::check::{CheckEnd, Checked, check_log};
use crate::config::configure_check;
use crate::review::{Reviewed, review_log};
use command_ends::{Outcome, Status};
use command_options::has_flag;
use command_options::names::ALL;
use front_ports::{ByteSink, Files, Source, write_all};
use log_summary::Watch;
use policy_rules::Policy;
use refusal_text::Refusal;
use std::alloc::Global;

/// How `check` ended.
#[derive(Debug, Drop)]
pub struct CheckEnded {
    pub status: Status,
    /// What was refused, where there is more to tell than the status.
    pub why: Option<Refusal>,
    /// How far the log conforms, where it was read: up to its first line that doesn't.
    pub checked: Option<Checked>,
}

// The status by which the end of a check is told, once its answer is written.
fn status_of(end: CheckEnd) -> Status
    ensures { result ≡ spec.status_of end }
{
    match end {
        CheckEnd::Done => Status::Done,
        CheckEnd::Refused(_) | CheckEnd::Cut => Status::Log,
        CheckEnd::ReadFault => Status::ReadFault,
        CheckEnd::NumbersSpent => Status::NumbersSpent,
        CheckEnd::NoMemory => Status::NoMemory,
    }
}

// The same of a check of all lines, of which so many don't conform.
fn status_by(end: CheckEnd, count: u64) -> Status
    ensures { result ≡ spec.status_by end count }
{
    match end {
        CheckEnd::Done if count == 0 => Status::Done,
        CheckEnd::Done | CheckEnd::Refused(_) | CheckEnd::Cut => Status::Log,
        CheckEnd::ReadFault => Status::ReadFault,
        CheckEnd::NumbersSpent => Status::NumbersSpent,
        CheckEnd::NoMemory => Status::NoMemory,
    }
}

pub(crate) fn why_of(status: Status) -> Option<Refusal>
    ensures { result ≡ spec.why_of status }
{
    match status {
        Status::ReadFault => Some(Refusal::Input),
        Status::WriteFault => Some(Refusal::Output),
        _ => None,
    }
}

// Writes a text, after which the status is that one.
fn write<O: ByteSink>(text: &[u8], done: Status, out: &mut O) -> Status
    ensures writes { spec.Writes done text.now
        (port (O.written out.old) (O.write_faults out.old) (O.written out.new) (O.write_faults out.new)) result }
    ensures later { O.write_faults out.old ≤ O.write_faults out.new }
{
    match write_all(out, text) {
        Ok(()) => done,
        Err(_) => Status::WriteFault,
    }
}

fn write_answer<O: ByteSink>(alloc: Global, checked: Checked, out: &mut O) -> Status
    ensures writes { spec.WritesIf (spec.status_of checked.end) (spec.answer_of checked)
        (port (O.written out.old) (O.write_faults out.old) (O.written out.new) (O.write_faults out.new)) result }
    ensures later { O.write_faults out.old ≤ O.write_faults out.new }
{
    let Ok(text) = answer_text(alloc, checked) else {
        return Status::NoMemory;
    };
    write(text.as_bytes(), status_of(checked.end), out)
}

fn write_review<O: ByteSink>(alloc: Global, review: &Reviewed, out: &mut O) -> Status
    ensures writes { spec.WritesIf (spec.status_in review.now) (spec.review_of review.now)
        (port (O.written out.old) (O.write_faults out.old) (O.written out.new) (O.write_faults out.new)) result }
    ensures later { O.write_faults out.old ≤ O.write_faults out.new }
{
    let Ok(text) = review_text(alloc, review.lines, &review.bad) else {
        return Status::NoMemory;
    };
    write(
        text.as_slice(),
        status_by(review.end, review.bad.count),
        out,
    )
}

// Writes how far a log conforms, if that is known.
fn tell<O: ByteSink>(alloc: Global, checked: Checked, out: &mut O) -> Status
    ensures tells { spec.Tells checked.end (spec.status_of checked.end) (spec.answer_of checked)
        (port (O.written out.old) (O.write_faults out.old) (O.written out.new) (O.write_faults out.new)) result }
    ensures later { O.write_faults out.old ≤ O.write_faults out.new }
{
    match checked.end {
        CheckEnd::Done | CheckEnd::Refused(_) | CheckEnd::Cut => write_answer(alloc, checked, out),
        CheckEnd::ReadFault | CheckEnd::NumbersSpent | CheckEnd::NoMemory => status_of(checked.end),
    }
}

// Writes which lines of a log don't conform, if that is known.
fn tell_review<O: ByteSink>(alloc: Global, review: &Reviewed, out: &mut O) -> Status
    ensures tells { spec.Tells review.now.end (spec.status_in review.now) (spec.review_of review.now)
        (port (O.written out.old) (O.write_faults out.old) (O.written out.new) (O.write_faults out.new)) result }
    ensures later { O.write_faults out.old ≤ O.write_faults out.new }
{
    match review.end {
        CheckEnd::Done | CheckEnd::Refused(_) | CheckEnd::Cut => write_review(alloc, review, out),
        CheckEnd::ReadFault | CheckEnd::NumbersSpent | CheckEnd::NoMemory => {
            status_by(review.end, review.bad.count)
        }
    }
}

fn end_at(end: CheckEnd, lines: u64, first: BadLine) -> CheckEnd
    ensures { result ≡ spec.end_at end lines first }
{
    match end {
        CheckEnd::Cut if lines < first.number => CheckEnd::Cut,
        _ => CheckEnd::Refused(first.why),
    }
}

// The first line that doesn't conform.
fn first_of(bad: &[BadLine], lines: u64, end: CheckEnd) -> Checked
    ensures { result ≡ spec.first_of bad.now lines end }
{
    match bad {
        [] => Checked { lines, end },
        [first, ..] => Checked {
            lines: first.number.saturating_sub(1),
            end: end_at(end, lines, *first),
        },
    }
}

fn run_policy<S: Source, O: ByteSink, W: Watch>(
    alloc: Global,
    policy: Policy,
    input: &mut S,
    out: &mut O,
    watch: &mut W,
) -> CheckEnded
    ensures run { spec.ChecksLog policy
        (port (S.left input.old) (S.read_faults input.old) (S.left input.new) (S.read_faults input.new))
        (port (O.written out.old) (O.write_faults out.old) (O.written out.new) (O.write_faults out.new)) result.status result.checked }
    ensures why { result.why ≡ spec.why_of result.status }
    ensures read_later { S.read_faults input.old ≤ S.read_faults input.new }
    ensures write_later { O.write_faults out.old ≤ O.write_faults out.new }
{
    let checked = check_log(alloc, policy, input, watch);
    let status = tell(alloc, checked, out);
    CheckEnded {
        status,
        why: why_of(status),
        checked: Some(checked),
    }
}

fn run_all<S: Source, O: ByteSink, W: Watch>(
    alloc: Global,
    policy: Policy,
    input: &mut S,
    out: &mut O,
    watch: &mut W,
) -> CheckEnded
    ensures run { spec.ReviewsLog policy
        (port (S.left input.old) (S.read_faults input.old) (S.left input.new) (S.read_faults input.new))
        (port (O.written out.old) (O.write_faults out.old) (O.written out.new) (O.write_faults out.new)) result.status result.checked }
    ensures why { result.why ≡ spec.why_of result.status }
    ensures read_later { S.read_faults input.old ≤ S.read_faults input.new }
    ensures write_later { O.write_faults out.old ≤ O.write_faults out.new }
{
    let review = review_log(alloc, policy, input, watch);
    let status = tell_review(alloc, &review, out);
    let checked = first_of(review.bad.first.as_slice(), review.lines, review.end);
    drop(review);
    CheckEnded {
        status,
        why: why_of(status),
        checked: Some(checked),
    }
}

fn run_by<S: Source, O: ByteSink, W: Watch>(
    alloc: Global,
    all: bool,
    policy: Policy,
    input: &mut S,
    out: &mut O,
    watch: &mut W,
) -> CheckEnded
    ensures run { spec.LogIsChecked all policy
        (port (S.left input.old) (S.read_faults input.old) (S.left input.new) (S.read_faults input.new))
        (port (O.written out.old) (O.write_faults out.old) (O.written out.new) (O.write_faults out.new)) result.status result.checked }
    ensures why { result.why ≡ spec.why_of result.status }
    ensures read_later { S.read_faults input.old ≤ S.read_faults input.new }
    ensures write_later { O.write_faults out.old ≤ O.write_faults out.new }
{
    if all {
        run_all(alloc, policy, input, out, watch)
    } else {
        run_policy(alloc, policy, input, out, watch)
    }
}

/// The command `check`: reads a log and says whether it conforms to the policy of the file that the words name, or to one that records
/// every request at level Metadata.
///
/// The status is `Done` where the whole input is lines that conform, `Log` where one of the first 2^48 lines doesn't, `NumbersSpent` where
/// so many conform and more follows; `Usage`, `Configuration`, `ReadFault`, `WriteFault` and `NoMemory` are those of `explain`. With `Done` it wrote how many
/// lines there are, with `Log` the number and the reason of the first that doesn't conform, with `WriteFault` a prefix of one of these, and else
/// nothing. Memory is that of one line and of the requests' last stages. `watch` is shown the events of lines that conform.
///
/// With the flag `--all` it goes on behind a line that doesn't conform, to the end of the input. With `Log` it then wrote the number and the
/// reason of up to `MOST_LISTED` lines, and how many there are. A fault of the input or the 2^48th line leaves nothing written.
pub fn run_check<F: Files, S: Source, O: ByteSink, W: Watch>(
    alloc: Global,
    words: &Vec<String>,
    files: &mut F,
    input: &mut S,
    out: &mut O,
    watch: &mut W,
) -> CheckEnded
    ensures run { spec.Run (map string_bytes words.now.items)
        (files_port (F.files files.old) (F.failed files.old) (F.faults files.old)
        (F.files files.new) (F.failed files.new) (F.faults files.new))
        (port (S.left input.old) (S.read_faults input.old) (S.left input.new) (S.read_faults input.new))
        (port (O.written out.old) (O.write_faults out.old) (O.written out.new) (O.write_faults out.new))
        result.status result.why result.checked }

    // Told files stay, and the counts of faults don't fall.
    ensures kept { KeepsFiles (F.files files.old) (F.files files.new) }
    ensures files_later { F.faults files.old ≤ F.faults files.new }
    ensures read_later { S.read_faults input.old ≤ S.read_faults input.new }
    ensures write_later { O.write_faults out.old ≤ O.write_faults out.new }
{
    match configure_check(alloc, words, files) {
        Ok(policy) => {
            let all = has_flag(ALL, words.as_slice());
            run_by(alloc, all, policy, input, out, watch)
        }
        Err(outcome) => {
            let Outcome { status, why } = outcome;
            CheckEnded {
                status,
                why,
                checked: None,
            }
        }
    }
}
