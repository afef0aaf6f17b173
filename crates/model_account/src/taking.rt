// Drawn steps, taken by a core.
use crate::answers::{length_of, said_by};
use crate::steps::step_of;
use crate::{Draw, Said, Turn};
use model_steps::{Core, run_steps};
use model_worlds::{Step, StepAnswer};
use std::alloc::Global;
use std::test::Fail;

/// What a core answers to a step in short, and how many bytes the line has that was taken, or 0.
pub fn answer_to(alloc: Global, core: &mut Core, draw: Draw) -> Result<(Said, u64), Fail> {
    let answer = core.step(alloc, step_of(alloc, draw)?)?;
    Ok((said_by(&answer), length_of(&answer)))
}

fn steps_of(alloc: Global, turns: &[Turn]) -> Result<Vec<Step>, Fail> {
    let mut steps = Vec::new(alloc);
    for turn in turns {
        steps.push(step_of(alloc, turn.draw)?)?;
    }
    Ok(steps)
}

fn are_answers_of(answers: &[StepAnswer], turns: &[Turn]) -> bool {
    for (answer, turn) in answers.iter().zip(turns) {
        if said_by(answer) != turn.said {
            return false;
        }
    }
    answers.len() == turns.len()
}

/// Whether the steps of these turns in one call have their answers in order.
pub fn are_run(alloc: Global, core: &mut Core, turns: &[Turn]) -> Result<bool, Fail> {
    let steps = steps_of(alloc, turns)?;
    let answers = run_steps(alloc, core, steps)?;
    Ok(are_answers_of(answers.as_slice(), turns))
}
