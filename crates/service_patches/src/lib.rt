//! What a merge patch makes of an APIService (RFC 7396): the row that stands in the place of the one it was sent for.
//!
//! The main contract is that of `patched_row`: it gives exactly the row of the object after the patch, read as one that is put
//! is, and none where that would be refused or has another name.
//!
//! Nothing is promised of the table: the caller puts the row in.
#![tactic(auto)]

mod laws;
mod patches;

pub use laws::a_patch_keeps_the_name;
pub use patches::patched_row;
