//! Where the services of APIs are reached: the endpoints file, which stands in for a look-up of their names.
//!
//! The main contracts are those of `read_endpoints`, which gives the endpoints of a file exactly, or the first row that
//! is refused and why, and of `Endpoints::of` and `Endpoints::others`, which give the address of the last row that has a
//! service's key or the delegate's, or the key of the paths that nothing else serves. Contracts see `Endpoints` as the
//! list of the file's rows; the code finds a key by one look-up in an ordered map, and takes no memory for it.
//!
//! Nothing is promised about what answers at an address, nor about how long a look-up takes.
#![tactic(auto)]

mod endpoint;
mod endpoints;
mod fault;
mod key;
mod laws;
mod names;
mod rows;

pub use endpoint::Endpoint;
pub use endpoints::Endpoints;
pub use fault::{BadEndpoint, EndpointFault};
pub use laws::keys_tell_services;
pub use rows::read_endpoints;
