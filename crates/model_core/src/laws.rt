ghost use Rattle.std.specs.Prelude.{◌≡◌, ◌<◌, ℕ, true, List, length, slice_get, Some, IfSome};
ghost use Rattle.audit_core.specs.Offers.{mode_of};
ghost use Rattle.audit_core.specs.declared.sinks.Sink.{Sink};
ghost use Rattle.audit_core.specs.declared.sinks.SinkMode.TheVariants.{Batch};
ghost use Rattle.model_core.specs.Begins.{Began, arrivals_in, exchanges_of};
ghost use Rattle.model_core.specs.Exchanges.{AreSettled, SettledSoFar};
ghost use Rattle.model_core.specs.Makers.{makers};
ghost use Rattle.model_core.specs.Offered.{bay_at};
ghost use Rattle.model_core.specs.Sinks.{BufferHolds, TriesHold, is_at_once};
ghost use Rattle.model_worlds.specs.Setup.{Setup};
ghost use Rattle.model_worlds.specs.Steps.{after_steps, start};
ghost use Rattle.model_worlds.specs.declared.state.Exchange.{Exchange};
ghost use Rattle.model_worlds.specs.declared.step.Step.{Step};

use model_worlds::lines_stay_in_order;

/// What holds after every list of steps from the start. Each buffer keeps its lines, from the offers that are noted as
/// taken to the tries, within its capacity and the limits of a batch. Of a sink that is written to at once each try is of
/// one line, of an offer that is noted as taken or failed. Each exchange that is over was answered as it was handled, and
/// all that it owes was offered; one that is not over is so as far as it has come. Each change was made by one exchange. The
/// exchanges of a bay are those of the Begins that it took, one each and in order, and their numbers go up by one from 0.
pub fn core_parts()
    ensures buffers { (setup : Setup) (bays : ℕ) (steps : List Step) (sink : Sink) → mode_of setup.set sink ≡ Batch
        → BufferHolds setup bays sink (after_steps setup (start bays) steps) }
    ensures tries { (setup : Setup) (bays : ℕ) (steps : List Step) (sink : Sink) (bay : ℕ)
        → is_at_once (mode_of setup.set sink) ≡ true
        → TriesHold setup sink (after_steps setup (start bays) steps) bay }
    ensures closed { (setup : Setup) (bays : ℕ) (steps : List Step) (bay : ℕ)
        → AreSettled setup (after_steps setup (start bays) steps).shared.changes
        (bay_at (after_steps setup (start bays) steps) bay).closed }
    ensures current { (setup : Setup) (bays : ℕ) (steps : List Step) (bay : ℕ)
        → IfSome (bay_at (after_steps setup (start bays) steps) bay).current
        (SettledSoFar setup (after_steps setup (start bays) steps).shared.changes) }
    ensures changes { (setup : Setup) (bays : ℕ) (steps : List Step) (place : ℕ)
        → place < length (after_steps setup (start bays) steps).shared.changes
        → makers setup (after_steps setup (start bays) steps).shared.changes place
        (after_steps setup (start bays) steps).bays ≡ 1 }
    ensures begins { (setup : Setup) (bays : ℕ) (steps : List Step) (bay : ℕ) → Began setup (arrivals_in setup bays steps bay)
        (exchanges_of (bay_at (after_steps setup (start bays) steps) bay)) }
    ensures numbers { (setup : Setup) (bays : ℕ) (steps : List Step) (bay place : ℕ) (x : Exchange)
        → slice_get (exchanges_of (bay_at (after_steps setup (start bays) steps) bay)) place ≡ Some x
        → x.facts.id ≡ record { boot = setup.boot; bay = bay; number = place } }
{
    lines_stay_in_order();
}
