ghost use Rattle.std.specs.Prelude.{◌≡◌, ◌⊎◌, ℕ, Bool, List};
ghost use Rattle.model_steps.specs.Machine.{RunsTo};
ghost use Rattle.json_span.specs.Value.{IsText};
ghost use Rattle.model_sinks.specs.Fixed.{Fixed, Keeps};
ghost use Rattle.model_sinks.specs.Running.{StepsTo};
ghost use Rattle.stage_event.specs.Kept.{IsKept};
ghost use Rattle.stage_event.specs.declared.facts.Kept.{Kept};
ghost use Rattle.model_worlds.specs.declared.state.State.{State};
ghost use Rattle.model_worlds.specs.declared.step.Step.{Step};
ghost use Rattle.model_worlds.specs.declared.step.StepAnswer.{StepAnswer};

use stage_event::one_kept;

/// Whether bytes are one JSON text can be decided. So something is kept of every body.
pub fn every_body_is_kept()
    ensures texts { (text : List ℕ) → IsText text ⊎ ¬ (IsText text) }
    ensures bodies { (omit : Bool) (body : List ℕ) → (kept : Kept) × IsKept omit body kept }
{}

/// Some function says what is kept of every body. The contracts of steps speak of each such function, and the laws of
/// `two_worlds` and `model_core` of any.
pub fn some_function_keeps()
    ensures { (keep : Bool → List ℕ → Kept) × Keeps keep }
{
    one_kept();
}

/// What the contracts of steps allow is one state and one answer, of a step as of steps one after another.
pub fn steps_are_determined()
    ensures step { (own : Fixed) (s t u : State) (taken : Step) (answer other : StepAnswer)
        → StepsTo own s taken t answer → StepsTo own s taken u other → (t ≡ u) × (answer ≡ other) }
    ensures run { (own : Fixed) (s t u : State) (steps : List Step) (answers others : List StepAnswer)
        → RunsTo own s steps t answers → RunsTo own s steps u others → (t ≡ u) × (answers ≡ others) }
{
    one_kept();
}
