ghost use Rattle.std.specs.Prelude.{◌≡◌};
ghost use Rattle.forward_link.specs.Target.{address_of};

use apiservice_rows::ServiceRef;
use front_base::Address;

/// Whom a request is sent on to.
#[derive(Debug, Drop)]
pub enum Target {
    /// The service that an APIService names, which listens at that address.
    Service { to: ServiceRef, address: Address },
    /// The server that answers for the APIs of APIServices without a service.
    Delegate { address: Address },
}

impl Target {
    /// Where it is dialed.
    pub fn address(&self) -> Address
        ensures { result ≡ address_of self.now }
    {
        match self {
            Target::Service { address, .. } => *address,
            Target::Delegate { address } => *address,
        }
    }
}
