// Answers of a core in short.
use crate::Said;
use audit_core::Outcome;
use model_worlds::StepAnswer;

fn said_of(own: Outcome) -> Said {
    match own {
        Outcome::Taken => Said::Taken,
        Outcome::Full => Said::Full,
        Outcome::Failed => Said::Failed,
        Outcome::TooLarge { .. } => Said::TooLarge,
    }
}

/// An answer in short.
pub fn said_by(answer: &StepAnswer) -> Said {
    match answer {
        StepAnswer::Begun => Said::Begun,
        StepAnswer::Found(Some(_)) => Said::Row,
        StepAnswer::Found(None) => Said::NoRow,
        StepAnswer::Offered(own) => said_of(*own),
        StepAnswer::Noted => Said::Noted,
        StepAnswer::Changed(None) => Said::Made,
        StepAnswer::Changed(Some(_)) => Said::Refused,
        StepAnswer::Took(Some(line)) => Said::Line(line.bay, line.number),
        StepAnswer::Took(None) => Said::NoLine,
        StepAnswer::Wrote(count) => Said::Wrote(*count),
        StepAnswer::Lost(count) => Said::Lost(*count),
        StepAnswer::Idle => Said::Idle,
    }
}

/// How many bytes the line has that was taken, or 0.
pub fn length_of(answer: &StepAnswer) -> u64 {
    match answer {
        StepAnswer::Took(Some(line)) => line.bytes.as_slice().len() as u64,
        _ => 0,
    }
}
