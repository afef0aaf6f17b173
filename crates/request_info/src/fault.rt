ghost use Rattle.std.specs.Prelude.{◌≡◌};
ghost use Rattle.request_info.specs.declared.fault.InfoFault.TheVariants as fault;

use front_base::NoMemory as OutOfMemory;
use std::alloc::AllocError;

/// Why a request asks for nothing that has a name.
#[derive(Clone, Copy, Debug, PartialEq, Eq)]
pub enum InfoFault {
    /// The target doesn't begin with a slash, or its path doesn't spell a text.
    BadTarget,
    /// Nothing stands after the `watch` or `proxy` of the path.
    NoKind,
    /// Memory ran out.
    NoMemory,
}

impl From<AllocError> for InfoFault {
    ghost from_gives = { λ _ e. e ≡ fault.NoMemory };

    fn from(_: AllocError) -> Self {
        InfoFault::NoMemory
    }
}

impl From<OutOfMemory> for InfoFault {
    ghost from_gives = { λ _ e. e ≡ fault.NoMemory };

    fn from(_: OutOfMemory) -> Self {
        InfoFault::NoMemory
    }
}
