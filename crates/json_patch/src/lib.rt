//! JSON Merge Patch (RFC 7396) over values of `serde_json`.
//!
//! The main contract is that of `merge_patch`: it gives the value that section 2 of the RFC says, and fails only where memory
//! runs out. Laws say of it what becomes of each member (`each_member`), that a patch does nothing more when it is applied again
//! (`twice_is_once`), and how deep the value nests (`no_deeper`).
//!
//! Nothing is promised of texts: a patch is applied to values, as `json_value` reads them.
#![tactic(auto)]

mod laws;
mod merge;
mod order;

pub use laws::{each_member, no_deeper, twice_is_once};
pub use merge::merge_patch;
pub use order::is_ordered;
