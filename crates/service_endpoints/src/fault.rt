ghost use Rattle.std.specs.Prelude.{◌≡◌};
ghost use Rattle.service_endpoints.specs.declared.fault.EndpointFault.TheVariants as fault;

use front_base::NoMemory as OutOfMemory;
use std::alloc::AllocFailed;

/// Why a row is no endpoint.
#[derive(Clone, Copy, Debug, PartialEq, Eq)]
pub enum BadEndpoint {
    /// It has fewer than two fields, or more.
    Fields,
    /// The first field is not `local`, `others` or `namespace/name:port`.
    Key,
    /// The second field is no address.
    Address,
}

/// Why an endpoints file isn't read.
#[derive(Clone, Copy, Debug, PartialEq, Eq)]
pub enum EndpointFault {
    /// A row is no endpoint. Rows are counted from 0, without blank lines.
    BadRow { row: u32, why: BadEndpoint },
    /// The reader of CSV says that its input failed. Bytes in memory give it no reason to, but none of its clauses rules
    /// that out.
    Input,
    /// Memory ran out.
    NoMemory,
}

impl<T: Drop> From<AllocFailed<T>> for EndpointFault {
    ghost from_gives = { λ _ e. e ≡ fault.NoMemory };

    fn from(_: AllocFailed<T>) -> Self {
        EndpointFault::NoMemory
    }
}

impl From<OutOfMemory> for EndpointFault {
    ghost from_gives = { λ _ e. e ≡ fault.NoMemory };

    fn from(_: OutOfMemory) -> Self {
        EndpointFault::NoMemory
    }
}
