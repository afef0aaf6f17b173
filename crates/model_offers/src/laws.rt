ghost use Rattle.std.specs.Prelude.{◌≡◌, ℕ, Bool, List, Some, slice_get, slice_set};
ghost use Rattle.model_sinks.specs.Fixed.{Fixed, setup_of};
ghost use Rattle.model_sinks.specs.Running.{TurnsTo};
ghost use Rattle.stage_event.specs.declared.facts.Kept.{Kept};
ghost use Rattle.model_worlds.specs.Steps as spec;
ghost use Rattle.model_worlds.specs.declared.state.Bay.{Bay};
ghost use Rattle.model_worlds.specs.declared.state.Shared.{Shared};
ghost use Rattle.model_worlds.specs.declared.state.State.{State};
ghost use Rattle.model_worlds.specs.declared.step.Step.TheVariants as step;
ghost use Rattle.model_worlds.specs.declared.step.StepAnswer.{StepAnswer};

use model_sinks::turns_are_steps;

/// What `find` and `change` leave of a bay and of what bays share is what the steps Find and Change leave of the whole, at the
/// bay's place.
pub fn looks_are_steps()
    ensures find { (own : Fixed) (keep : Bool → List ℕ → Kept) (s : State) (place seen : ℕ) (b new : Bay) (sh : Shared)
        (answer : StepAnswer) → slice_get s.bays place ≡ Some b
        → TurnsTo (spec.in_exchange (spec.found (setup_of own keep) seen) s.shared b) s.shared b sh new answer
        → spec.step (setup_of own keep) s (step.Find place seen)
        ≡ record { state = record { shared = sh; bays = slice_set s.bays place new }; answer = answer } }
    ensures change { (own : Fixed) (keep : Bool → List ℕ → Kept) (s : State) (place : ℕ) (b new : Bay) (sh : Shared)
        (answer : StepAnswer) → slice_get s.bays place ≡ Some b
        → TurnsTo (spec.in_exchange (spec.changed (setup_of own keep)) s.shared b) s.shared b sh new answer
        → spec.step (setup_of own keep) s (step.Change place)
        ≡ record { state = record { shared = sh; bays = slice_set s.bays place new }; answer = answer } }
{
    turns_are_steps();
}
