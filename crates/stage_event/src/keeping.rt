ghost use Rattle.std.specs.Prelude.{IfOk};
ghost use Rattle.stage_event.specs.Kept.{IsKept, IsKeptAs};

use crate::facts::Kept;
use crate::show::Show;
use front_base::{Bytes, NoMemory};
use json_prune::keep;
use json_span::JsonError;
use std::alloc::Global;

/// The most bytes of a body that an event shows.
pub const MOST_KEPT_BYTES: usize = 4_194_304;

/// What is kept of a whole body, without managed fields where `omit` says so. A body that is too long isn't looked at.
pub fn kept(alloc: Global, body: &[u8], omit: bool) -> Result<Kept, NoMemory>
    ensures { IfOk result (λ kept. IsKept omit body.now kept) }
{
    if body.len() > MOST_KEPT_BYTES {
        return Ok(Kept::Over);
    }
    match keep(alloc, body, omit) {
        Ok(text) => Ok(Kept::Compact(Bytes::new(text))),
        Err(JsonError::NotJson(_)) => Ok(Kept::NotJson),
        Err(JsonError::NoMemory) => Err(NoMemory),
    }
}

/// What is kept of a whole body of which events show that.
pub fn kept_as(alloc: Global, show: Show, body: &[u8]) -> Result<Kept, NoMemory>
    ensures { IfOk result (λ kept. IsKeptAs show body.now kept) }
{
    match show {
        Show::Nothing => Ok(Kept::NotAsked),
        Show::Whole => kept(alloc, body, false),
        Show::Pruned => kept(alloc, body, true),
    }
}
