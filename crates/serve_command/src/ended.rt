ghost use Rattle.std.specs.Prelude.{◌≡◌};
ghost use Rattle.serve_command.specs.Ended as spec;

use command_ends::Status;
use serve_runs::RunStatus;

/// The status of the program after a run that ended so.
pub fn status_of(status: RunStatus) -> Status
    ensures { result ≡ spec.status_of status }
{
    match status {
        RunStatus::Done => Status::Done,
        RunStatus::Unopened(_) | RunStatus::DoorFault => Status::PortFault,
        RunStatus::NoMemory => Status::NoMemory,
        RunStatus::NumbersSpent => Status::NumbersSpent,
    }
}
