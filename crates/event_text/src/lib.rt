//! The lines of audit events: each event is one JSON object on one line (`Event` of `audit.k8s.io/v1`).
//!
//! The main contract is that of `line`: the line is the text that the definition `line_text` states, byte for byte. It
//! is a list of members joined, of which those without a value are left out.
//!
//! Nothing is promised of objects in an event that aren't JSON: they are written as they are.
#![tactic(auto)]

mod lines;
mod members;
mod object_ref;
mod reply;
mod request;
mod tail;
mod times;
mod user;

pub use lines::{line, push_line, stripped_line};
pub use reply::objects_exceed;
