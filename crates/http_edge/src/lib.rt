//! The requests of a connection, whatever the sizes of its reads (RFC 9112, sections 2 to 7).
//!
//! The main contract is that of `Edge::next_request`: the request that it gives stands first in the bytes that were held
//! and read, and what is held then stands after it. Where it gives none, those bytes say why. `specs/Requests.antt` says
//! what the requests of an input are. The law `one_list_of_requests` says that an input has one list of them with one
//! end and that it can't be without, `requests_stay` that what stands first stays there, and `requests_fit` that no body
//! has more than `MOST_BODY_BYTES`.
//!
//! Nothing is promised of how much of an input is read ahead, but that at most `MOST_HELD_BYTES` bytes are held.
#![tactic(auto)]

mod laws;
mod next;
mod reply;
mod request;

pub use laws::{one_list_of_requests, requests_fit, requests_stay};
pub use next::{Edge, asks};
pub use reply::put_reply;
pub use request::{End, Request, Stop};
pub use wire_intake::MOST_HELD_BYTES;

/// The most bytes that the body of a request may have.
pub const MOST_BODY_BYTES: u64 = 3145728;
