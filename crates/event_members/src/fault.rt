ghost use Rattle.std.specs.Prelude.{◌≡◌};
ghost use Rattle.event_members.specs.declared.fault.EventFault.TheVariants as fault;

use std::alloc::{AllocError, AllocFailed};

/// Why no event was read from a text.
#[derive(Clone, Copy, Debug, PartialEq, Eq)]
pub enum EventFault {
    /// No plain event has this text.
    NotAnEvent,
    NoMemory,
}

impl From<front_base::NoMemory> for EventFault {
    ghost from_gives = { λ _ e. e ≡ fault.NoMemory };

    fn from(_: front_base::NoMemory) -> Self {
        EventFault::NoMemory
    }
}

impl From<AllocError> for EventFault {
    ghost from_gives = { λ _ e. e ≡ fault.NoMemory };

    fn from(_: AllocError) -> Self {
        EventFault::NoMemory
    }
}

impl<T: Drop> From<AllocFailed<T>> for EventFault {
    ghost from_gives = { λ _ e. e ≡ fault.NoMemory };

    fn from(_: AllocFailed<T>) -> Self {
        EventFault::NoMemory
    }
}
