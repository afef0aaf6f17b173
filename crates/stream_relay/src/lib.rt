//! The body of a reply that is not read whole, handed on to a client as it comes (RFC 9112, sections 6.3, 7.1 and 8).
//!
//! The main contract is that of `relay`: the client gets the decoded body in order, none of it lost and none twice, however
//! the link and the client cut it, and the answer is what all bytes of the body say. Each piece is written when it came, in
//! one buffer with its chunk's frame, and no more than one piece is held. `Keep` counts the body, and keeps it for an event
//! where it is small enough. The laws `bodies_end_one_way`, `bodies_are_relayed_whole` and `clients_can_tell` say in a
//! reader's words what the answers and the written chunks are.
//!
//! Nothing is promised of how a body is cut into pieces, nor of how long a link or a client takes. A client of version 1.0
//! that gets a body without a length cannot tell a cut from the end.
#![tactic(auto)]

mod hand;
mod keep;
mod laws;
mod stream;

pub use keep::{Keep, MOST_KEPT_BYTES};
pub use laws::{
    bodies_are_relayed_whole, bodies_end_one_way, clients_can_tell, no_byte_is_left_out,
};
pub use stream::{MOST_STREAMED_BYTES, Relayed, relay};
