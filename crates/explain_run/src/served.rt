// How a run ended that has read its input.
ghost use Rattle.std.specs.Prelude.{◌≡◌};
ghost use Rattle.command_ends.specs.Why as spec;

use crate::serving::Progress;
use command_ends::{Ended, Status};
use refusal_text::Refusal;

fn why_of_serving(status: Status, progress: &Progress) -> Option<Refusal>
    ensures { spec.TellsServing status result }
{
    match status {
        Status::ReadFault => Some(Refusal::Input),
        Status::WriteFault => Some(Refusal::Output),
        Status::Input => Some(Refusal::Request {
            number: progress.served.saturating_add(1),
            byte: progress.used.saturating_add(1),
            end: progress.end,
        }),
        Status::Done => None,
        Status::Usage => None,
        Status::Configuration => None,
        Status::PortFault => None,
        Status::NoMemory => None,
        Status::NumbersSpent => None,
        Status::Log => None,
        Status::NotDelivered => None,
        Status::NothingListed => None,
    }
}

/// How a run ends that read its input with this status, having come so far, where an event may have so many bytes.
pub fn served_ended(status: Status, progress: &Progress, max_event: u64) -> Ended
    ensures status { result.status ≡ status }
    ensures why { spec.TellsServing status result.why }
    ensures too_large { result.too_large ≡ progress.now.too_large }
{
    Ended {
        status,
        why: why_of_serving(status, progress),
        too_large: progress.too_large,
        max_event,
    }
}
