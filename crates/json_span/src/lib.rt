//! JSON texts as they are spelled (RFC 8259): checked, compacted, quoted and looked into, without values being built.
//!
//! The main contracts are those of `check`, which says whether bytes are one JSON text and otherwise where they go
//! wrong, and of `compact`, which gives the tokens of a text joined. `one_value` says that a text stands for one value
//! at most.
//!
//! Nothing is promised of what numbers and escapes mean: tokens are compared and kept as they are spelled, and a name
//! may stand twice in an object.
#![tactic(auto)]

mod fault;
mod joined;
mod laws;
mod literal;
mod members;
mod nesting;
mod number;
mod place;
mod quoted;
mod string;
mod text;
mod token;

pub use fault::{JsonError, JsonFault};
pub use joined::compact;
pub use laws::{compact_keeps_the_value, one_fault, one_length, one_value};
pub use members::{member, value_len};
pub use quoted::{escape_from, push_quoted, quote};
pub use text::check;
