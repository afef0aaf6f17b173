ghost use Rattle.std.specs.Prelude.{◌≡◌, IfOk};
ghost use Rattle.truncate_backend.specs.Fits.{fitted, fitted_stripped};

use crate::fitted::Fit;
use event_text::{line, objects_exceed, stripped_line};
use front_base::NoMemory;
use stage_event::Event;
use std::alloc::Global;

fn fit_stripped(alloc: Global, event: &Event, max: u64) -> Result<Fit, NoMemory>
    ensures { IfOk result (λ fit. fit ≡ fitted_stripped event.now max) }
{
    let stripped = stripped_line(alloc, event)?;
    let size = stripped.as_slice().len() as u64;
    if size <= max {
        Ok(Fit::Stripped(stripped))
    } else {
        Ok(Fit::TooLarge { size })
    }
}

/// The event's line where it has at most `max` bytes, else the line without the event's objects where that has, else the
/// length of that (`--audit-log-truncate-max-event-size` of kube-apiserver). An event whose objects alone have more than
/// `max` bytes isn't written with them first.
pub fn fit(alloc: Global, event: &Event, max: u64) -> Result<Fit, NoMemory>
    ensures { IfOk result (λ fit. fit ≡ fitted event.now max) }
{
    if objects_exceed(event, max) {
        return fit_stripped(alloc, event, max);
    }
    let whole = line(alloc, event)?;
    if whole.as_slice().len() as u64 <= max {
        Ok(Fit::Whole(whole))
    } else {
        fit_stripped(alloc, event, max)
    }
}
