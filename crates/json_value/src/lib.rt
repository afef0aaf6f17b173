//! JSON texts as values of `serde_json` (RFC 8259): read, and looked at member by member.
//!
//! The main contract is that of `read_value`: it gives the value that the bytes are, and refuses exactly these bytes:
//! those that are no JSON text in UTF-8, a byte order mark among them; arrays and objects nested more than 127 deep; a
//! number past the range of a double, as `1e400`; and an escape of half a surrogate pair, as `"\ud800"`, which RFC 8259
//! allows. A member that is `null` counts as absent everywhere here.
//!
//! Nothing is promised of how a text is spelled: a value keeps no order of members, and of equal names in one object it
//! keeps the last one's member.
#![tactic(auto)]

mod fault;
mod floats;
mod head;
mod members;
mod read;

pub use fault::ValueError;
pub use floats::has_float;
pub use head::head_fault;
pub use members::{inner, is_text, present, text_in};
pub use read::read_value;
