ghost use Rattle.std.specs.Prelude.{◌≡◌};
ghost use Rattle.serve_runs.specs.Status as spec;

use crate::ended::RunStatus;
use bay_runs::BayStop;
use serve_roles::BayEnd;

fn any_failed<R, L, K, Y, D>(bays: &[BayEnd<R, L, K, Y, D>]) -> bool
    ensures { result ≡ spec.any_fault (spec.stops_of bays.now) }
{
    match bays.split_first() {
        None => false,
        Some((first, rest)) => match first.stop {
            BayStop::DoorFault => true,
            BayStop::Closed => any_failed(rest),
            BayStop::NumbersSpent => any_failed(rest),
        },
    }
}

fn any_spent<R, L, K, Y, D>(bays: &[BayEnd<R, L, K, Y, D>]) -> bool
    ensures { result ≡ spec.any_spent (spec.stops_of bays.now) }
{
    match bays.split_first() {
        None => false,
        Some((first, rest)) => match first.stop {
            BayStop::NumbersSpent => true,
            BayStop::Closed => any_spent(rest),
            BayStop::DoorFault => any_spent(rest),
        },
    }
}

// By why its bays stopped.
pub(crate) fn status_of<R, L, K, Y, D>(bays: &[BayEnd<R, L, K, Y, D>]) -> RunStatus
    ensures { result ≡ spec.status_of (spec.stops_of bays.now) }
{
    if any_failed(bays) {
        RunStatus::DoorFault
    } else if any_spent(bays) {
        RunStatus::NumbersSpent
    } else {
        RunStatus::Done
    }
}
