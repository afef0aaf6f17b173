// What is written of a log.
ghost use Rattle.std.specs.Prelude.{◌≡◌, ◌++◌, IfOk, OnOk, string_bytes};
ghost use Rattle.check_command.specs.Answer as spec;

use crate::bad_lines::{BadLine, BadLines};
use crate::check::{CheckEnd, Checked};
use audit_check::LineFault;
use std::alloc::{AllocError, Global};

// The word of a reason why a line doesn't conform.
fn word_of(fault: LineFault) -> &'static str
    ensures { result.now ≡ spec.word_of fault }
{
    match fault {
        LineFault::Form => "form",
        LineFault::Place => "place",
        LineFault::Level { .. } => "level",
        LineFault::Stage { .. } => "stage",
        LineFault::NoMemory => "",
    }
}

fn line_text(alloc: Global, line: u64, fault: LineFault) -> Result<String, AllocError>
    ensures { IfOk result (λ text. string_bytes text ≡ spec.line_text line fault) }
{
    let word = word_of(fault);
    format!(in alloc; "line {line} {word}\n")
}

fn refused_text(alloc: Global, lines: u64, fault: LineFault) -> Result<String, AllocError>
    ensures { IfOk result (λ text. string_bytes text ≡ spec.refused_text lines fault) }
{
    let line = lines.saturating_add(1);
    line_text(alloc, line, fault)
}

fn events_text(alloc: Global, lines: u64) -> Result<String, AllocError>
    ensures { IfOk result (λ text. string_bytes text ≡ spec.events_text lines) }
{
    format!(in alloc; "events {lines}\n")
}

/// The line that tells how far a log conforms, with a line feed; nothing where that isn't known.
pub fn answer_text(alloc: Global, checked: Checked) -> Result<String, AllocError>
    ensures { IfOk result (λ text. string_bytes text ≡ spec.answer_text checked.lines checked.end) }
{
    let lines = checked.lines;
    match checked.end {
        CheckEnd::Done => events_text(alloc, lines),
        CheckEnd::Refused(fault) => refused_text(alloc, lines, fault),
        CheckEnd::Cut => refused_text(alloc, lines, LineFault::Form),
        CheckEnd::ReadFault | CheckEnd::NumbersSpent | CheckEnd::NoMemory => Ok(String::new(alloc)),
    }
}

fn push_lines(out: &mut Vec<u8>, alloc: Global, bad: &[BadLine]) -> Result<(), AllocError>
    ensures { OnOk result (out.new.items ≡ out.old.items ++ spec.lines_text bad.now) }
{
    for line in bad {
        let text = line_text(alloc, line.number, line.why)?;
        out.extend_from_slice(text.as_bytes())?;
    }
    Ok(())
}

fn bad_text(alloc: Global, bad: &BadLines) -> Result<Vec<u8>, AllocError>
    ensures { IfOk result (λ text. text.items ≡ spec.bad_text bad.now) }
{
    let count = bad.count;
    let mut out = Vec::new(alloc);
    push_lines(&mut out, alloc, bad.first.as_slice())?;
    let counted = format!(in alloc; "bad lines {count}\n")?;
    out.extend_from_slice(counted.as_bytes())?;
    Ok(out)
}

/// What is written of a whole log of so many lines: of those that don't conform the first ones and how many there are, or how many lines
/// there are where all conform.
pub fn review_text(alloc: Global, lines: u64, bad: &BadLines) -> Result<Vec<u8>, AllocError>
    ensures { IfOk result (λ text. text.items ≡ spec.review_text lines bad.now) }
{
    if bad.count == 0 {
        return Ok(events_text(alloc, lines)?.into_bytes());
    }
    bad_text(alloc, bad)
}

// Why the line after those that conform doesn't, in words.
fn reason_of(end: CheckEnd) -> Option<&'static str> {
    match end {
        CheckEnd::Refused(LineFault::Form) => Some("not an event as this server writes it"),
        CheckEnd::Refused(LineFault::Place) => {
            Some("its object reference, status, bodies or users can't be those of its request")
        }
        CheckEnd::Refused(LineFault::Level { .. }) => {
            Some("the policy has another level for it, or omits its stage")
        }
        CheckEnd::Refused(LineFault::Stage { .. }) => {
            Some("its request had this stage before, or a later one")
        }
        CheckEnd::Cut => Some("cut: the log ends within it"),
        _ => None,
    }
}

// What is told of the lines before one that was cut.
fn before_cut(alloc: Global, checked: Checked) -> Result<String, AllocError> {
    let lines = checked.lines;
    match checked.end {
        CheckEnd::Cut if lines == 0 => String::from_str(alloc, "; no line stands before it"),
        CheckEnd::Cut => format!(in alloc; "; the last good line is {lines}"),
        _ => Ok(String::new(alloc)),
    }
}

/// What a person is told of the first line that doesn't conform, with a line feed: its number, why, and of a line that was cut the number of
/// the last good one. Nothing where there is no such line.
pub fn reason_text(alloc: Global, checked: Checked) -> Result<String, AllocError> {
    let Some(why) = reason_of(checked.end) else {
        return Ok(String::new(alloc));
    };
    let line = checked.lines.saturating_add(1);
    let before = before_cut(alloc, checked)?;
    format!(in alloc; "apiaggd: line {line}: {why}{before}\n")
}
