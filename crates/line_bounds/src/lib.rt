//! How long the line of an audit event without its objects can be.
//!
//! `lines_are_bounded` says that it has no more bytes than `line_bound`: those of its texts, each escape counted, and at most
//! `OTHER_BYTES` for all else. `texts_are_bounded` says how much longer a text can be as a JSON string: six bytes for one, and
//! two for one that is no control character.
//!
//! Nothing runs here: these are laws of definitions. Nothing is promised of objects, which may have any length.
#![tactic(auto)]

mod laws;

pub use laws::{lines_are_bounded, texts_are_bounded};

/// The most bytes that the line of an event without its objects has beside its target, its verb, its users, its agent and
/// the object that it names.
pub const OTHER_BYTES: u64 = 640;
