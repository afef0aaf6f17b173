ghost use Rattle.std.specs.Prelude.{◌≡◌};
ghost use Rattle.json_span.specs.declared.fault.JsonError.TheVariants as error;

use std::alloc::{AllocError, AllocFailed};

/// Bytes that are no JSON text.
#[derive(Clone, Copy, Debug, PartialEq, Eq)]
pub struct JsonFault {
    /// How many bytes at the start still begin some JSON text.
    pub at: usize,
}

/// Why a call gives no text.
#[derive(Clone, Copy, Debug, PartialEq, Eq)]
pub enum JsonError {
    NotJson(JsonFault),
    NoMemory,
}

impl From<AllocError> for JsonError {
    ghost from_gives = { λ _ e. e ≡ error.NoMemory };

    fn from(_: AllocError) -> Self {
        JsonError::NoMemory
    }
}

impl<T: Drop> From<AllocFailed<T>> for JsonError {
    ghost from_gives = { λ _ e. e ≡ error.NoMemory };

    fn from(_: AllocFailed<T>) -> Self {
        JsonError::NoMemory
    }
}
