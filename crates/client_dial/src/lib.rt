//! The dial of a command that serves nothing: each call opens a TCP link of its own, which has to come to its end within a
//! time limit.
//!
//! A socket tells no bytes, so contracts say of it only that counts of faults rise where calls fail. That the bytes are sent and read is
//! tested by `examples/`.
#![tactic(auto)]

mod clock;
mod dial;
mod last_error;
mod link;

pub use dial::ClientDial;
pub use last_error::LastError;
pub use link::ClientLink;
