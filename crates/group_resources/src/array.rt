// JSON arrays without white space.
ghost use Rattle.group_resources.specs.Lines as spec;
ghost use Rattle.std.specs.Prelude.{◌≡◌};
ghost use Rattle.group_resources.specs.Lists.{begins};
ghost use Rattle.group_resources.specs.Reading.{Tells};

use crate::line::State;
use event_members::EventFault;
use json_span::{JsonError, compact, one_value};
use std::alloc::Global;

// Whether that is the first byte.
pub fn begins(bytes: &[u8], mark: u8) -> bool
    ensures { result ≡ begins mark bytes.now }
{
    match bytes {
        [byte, ..] => *byte == mark,
        [] => false,
    }
}

// Whether the bytes are such an array.
fn is_array(alloc: Global, bytes: &[u8]) -> Result<bool, EventFault>
    ensures { Tells (spec.IsArray bytes.now) result }
{
    one_value();
    if !begins(bytes, b'[') {
        return Ok(false);
    }
    match compact(alloc, bytes) {
        Ok(joined) => Ok(joined.as_slice() == bytes),
        Err(JsonError::NotJson(_)) => Ok(false),
        Err(JsonError::NoMemory) => Err(EventFault::NoMemory),
    }
}

// Whether resources of that state are spelled so.
pub fn is_of_state(alloc: Global, state: State, resources: &[u8]) -> Result<bool, EventFault>
    ensures { Tells (spec.IsOfState state resources.now) result }
{
    match state {
        State::Fresh | State::Stale => is_array(alloc, resources),
        State::Missing => Ok(resources == b"[]".as_slice()),
    }
}
