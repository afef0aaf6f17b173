//! The bytes that came from a connection or a link and weren't used yet, and what is cut from them: the block of a head,
//! and a body in any frame within any limit. The same code reads the requests of a client and the replies of a backend.
//!
//! The main contracts are those of `next_block` and `next_body`: what they give stands first in the bytes that were held
//! and read, and what is held then stands after it. Where they give nothing, those bytes say why. However the reads cut
//! them, bytes are moved once at most, beside the moves of a room that grows.
//!
//! A read goes straight to where its bytes are held, and takes as many as there is room for: `MOST_READ_BYTES` at first, and
//! more once a head or a body has filled the room, up to `MOST_BODY_READ_BYTES` for a body. Nothing is promised of how much
//! of an input is read ahead, but that at most `MOST_HELD_BYTES` bytes are held.
#![tactic(auto)]

mod block;
mod body;
mod intake;
mod room;

pub use block::{BlockStop, next_block};
pub use body::{BodyStop, next_body};
pub use intake::{Intake, MOST_BODY_READ_BYTES, MOST_HELD_BYTES, MOST_READ_BYTES, ReadStop};
