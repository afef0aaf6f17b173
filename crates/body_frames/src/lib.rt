//! Bodies of HTTP/1.1 messages in their frames (RFC 9112, sections 6 and 7): decoded as they come, written in chunks.
//!
//! The main contract is that of `Decoder::feed`: it moves a decoder by the bytes taken and by nothing else, so a body, and
//! the fault of one that is refused, are the same however the bytes are cut. `specs/Body.antt` says what a body in its
//! frame is, when it is too large, where it breaks, and when there is more to come. The laws `decoded_bodies` and
//! `refused_bodies` say that a decoder is done, broken or awaits more exactly so, `first_bodies` that all bytes begin
//! with one of these, `bodies_fit` that a body exceeds no limit, and `written_chunks` that chunks written here are of the
//! grammar.
//!
//! Nothing is promised of trailers, which are refused, and of chunk extensions, which are skipped.
#![tactic(auto)]

mod chunk;
mod decoder;
mod frame;
mod laws;
mod place;

pub use chunk::{chunk_frame, last_frame};
pub use decoder::{Decoder, Fed};
pub use frame::{BodyFault, Frame};
pub use laws::{bodies_fit, decoded_bodies, first_bodies, refused_bodies, written_chunks};
