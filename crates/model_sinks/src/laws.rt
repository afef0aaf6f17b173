ghost use Rattle.std.specs.Prelude.{◌≡◌, ◌≤◌, ℕ, length, Option, Some, slice_get, slice_set};
ghost use Rattle.model_sinks.specs.Running.{TurnsTo};
ghost use Rattle.model_worlds.specs.Steps.{Turn, at_bay};
ghost use Rattle.model_worlds.specs.declared.state.Bay.{Bay};
ghost use Rattle.model_worlds.specs.declared.state.Shared.{Shared};
ghost use Rattle.model_worlds.specs.declared.state.State.{State};
ghost use Rattle.model_worlds.specs.declared.step.StepAnswer.{StepAnswer};
ghost use Rattle.model_worlds.specs.declared.step.StepAnswer.TheVariants.{Idle};

/// A turn of a bay is a step of the whole: it is taken at the bay's place, and what it leaves stands there. A bay that isn't
/// there is idle.
pub fn turns_are_steps()
    ensures taken { (s : State) (place : ℕ) (f : Shared → Bay → Option Turn) (b new : Bay) (sh : Shared)
        (answer : StepAnswer) → slice_get s.bays place ≡ Some b → TurnsTo (f s.shared b) s.shared b sh new answer
        → at_bay s place f
        ≡ record { state = record { shared = sh; bays = slice_set s.bays place new }; answer = answer } }
    ensures none { (s : State) (place : ℕ) (f : Shared → Bay → Option Turn) → length s.bays ≤ place
        → at_bay s place f ≡ record { state = s; answer = Idle } }
{}
