// Drawn steps, taken by a core and told by the second account.
use model_account::{Dice, Draw, Form, Model, Turn, answer_to, is_told, kind_of, word_of};
use model_steps::Core;
use std::alloc::Global;
use std::test::Fail;

fn take_turn(alloc: Global, core: &mut Core, model: &mut Model, draw: Draw) -> Result<Turn, Fail> {
    let (said, length) = answer_to(alloc, core, draw)?;
    let wanted = model.step(draw, length)?;
    let is_told = is_told(core.state(), model);
    Ok(Turn {
        draw,
        said,
        wanted,
        is_told,
    })
}

// So many steps.
fn take_turns(
    alloc: Global,
    core: &mut Core,
    model: &mut Model,
    dice: &mut Dice,
    count: u64,
) -> Result<Vec<Turn>, Fail> {
    let mut turns = Vec::new(alloc);
    for now in 0..count {
        let draw = dice.draw(model, now);
        turns.push(take_turn(alloc, core, model, draw)?)?;
    }
    Ok(turns)
}

// So many steps, drawn from that seed.
pub fn draw_turns(
    alloc: Global,
    core: &mut Core,
    form: Form,
    seed: u64,
    count: u64,
) -> Result<Vec<Turn>, Fail> {
    let mut model = Model::new(alloc, form.bays, form.capacity, form.limits)?;
    let mut dice = Dice { seed };
    take_turns(alloc, core, &mut model, &mut dice, count)
}

/// The number of the first step whose answer, or the state after it, isn't as the second account has it.
pub fn first_unlike(turns: &[Turn]) -> Option<usize> {
    for (number, turn) in turns.iter().enumerate() {
        if turn.said != turn.wanted || !turn.is_told {
            return Some(number);
        }
    }
    None
}

// Whether some step of that kind was answered so.
fn has(turns: &[Turn], kind: &str, answer: &str) -> bool {
    for turn in turns {
        if kind_of(turn.draw) == kind && word_of(turn.said) == answer {
            return true;
        }
    }
    false
}

/// The first of these lines that no turn has, each the kind of a step and of its answer.
pub fn first_missing<'a>(turns: &[Turn], lines: &'a str) -> Option<&'a str> {
    for line in lines.lines() {
        let (kind, answer) = line.split_once(' ').unwrap_or((line, ""));
        if !has(turns, kind, answer) {
            return Some(line);
        }
    }
    None
}
