ghost use Rattle.std.specs.Prelude.{◌≡◌, ◌++◌, ◌∷◌, [], IfOk, OnOk, OnErr};
ghost use Rattle.model_steps.specs.Machine.{RunsTo, StopsAt};
ghost use Rattle.model_sinks.specs.Running.{StepsTo};
ghost use Rattle.model_worlds.specs.declared.step.StepAnswer as declared;

use crate::whole::Core;
use front_base::NoMemory;
use model_worlds::{Step, StepAnswer};
use std::alloc::Global;

// Takes a step, and adds its answer behind the others.
fn run_step(
    alloc: Global,
    core: &mut Core,
    step: Step,
    answers: &mut Vec<StepAnswer>,
) -> Result<(), NoMemory>
    ensures ok { OnOk result ((answer : declared.StepAnswer)
        × StepsTo core.old.fixed core.old.state step core.new.state answer
        × (answers.new.items ≡ answers.old.items ++ answer ∷ [])) }
    ensures fixed { core.new.fixed ≡ core.old.fixed }
    ensures err { OnErr result (core.new ≡ core.old) }
{
    answers.reserve(1)?;
    let answer = core.step(alloc, step)?;
    answers.push_reserved(answer);
    Ok(())
}

/// Steps one after another, and their answers in order. Where memory runs out, the state is that after the steps before.
pub fn run_steps(
    alloc: Global,
    core: &mut Core,
    steps: Vec<Step>,
) -> Result<Vec<StepAnswer>, NoMemory>
    ensures ok { IfOk result (λ answers.
        RunsTo core.old.fixed core.old.state steps.items core.new.state answers.items) }
    ensures err { OnErr result (StopsAt core.old.fixed core.old.state steps.items core.new.state) }
    ensures fixed { core.new.fixed ≡ core.old.fixed }
{
    let mut answers = Vec::new(alloc);
    for step in steps {
        run_step(alloc, core, step, &mut answers)?;
    }
    Ok(answers)
}
