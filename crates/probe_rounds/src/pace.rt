// When rounds begin.
ghost use Rattle.std.specs.Prelude.{◌≡◌, ◌<◌, ◌≤◌, false, true};
ghost use Rattle.front_ports.specs.Cause.{Rose};
ghost use Rattle.probe_rounds.specs.Pace as spec;

use crate::going::Going;
use crate::plan::ProbePlan;
use front_base::Moment;
use front_ports::Clock;

/// How far rounds have come.
#[derive(Clone, Copy, Debug)]
pub struct Pace {
    /// How many have begun.
    pub done: u32,
    /// When the last one began.
    pub began: Option<Moment>,
}

/// None has begun.
pub fn start() -> Pace
    ensures { result ≡ spec.start }
{
    Pace {
        done: 0,
        began: None,
    }
}

fn is_past(every: u32, began: Moment, now: Moment) -> bool
    ensures { result ≡ spec.is_past every began now }
{
    if every == 0 {
        true
    } else {
        began.micros() + every as u64 * 1_000_000 <= now.micros()
    }
}

/// Whether a round begins at that moment, the last one having begun at `began`.
pub fn is_due(every: u32, began: Option<Moment>, now: Moment) -> bool
    ensures { result ≡ spec.is_due every began now }
{
    match began {
        Some(began) => is_past(every, began, now),
        None => true,
    }
}

/// Whether as many rounds have begun as there are.
pub fn is_whole(plan: &ProbePlan, pace: &Pace) -> bool
    requires { pace.now.done ≤ plan.now.rounds }
    ensures whole { result ≡ true → pace.now.done ≡ plan.now.rounds }
    ensures left { result ≡ false → pace.now.done < plan.now.rounds }
{
    pace.done == plan.rounds
}

/// Rests, and says whether rounds go on: nobody is asked where no time was told.
pub fn goes_on<K: Clock, G: Going>(plan: &ProbePlan, clock: &mut K, going: &mut G) -> bool
    ensures rests { K.rests clock.new ≡ spec.once_more (K.rests clock.old) }
    ensures given { K.given clock.new ≡ K.given clock.old }
    ensures last { K.last clock.new ≡ K.last clock.old }
    ensures asked { G.asked going.new ≡ spec.asked_once plan.now.every (G.asked going.old) }
    ensures yes { result ≡ true → G.noes going.new ≡ G.noes going.old }
    ensures no { result ≡ false → Rose (G.noes going.old) (G.noes going.new) }
    ensures told { result ≡ false → 1 ≤ plan.now.every }
{
    clock.rest();
    if plan.every == 0 {
        true
    } else {
        going.goes_on()
    }
}
