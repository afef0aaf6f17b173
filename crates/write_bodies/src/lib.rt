//! What the body of a write asks for beside an object: the options of a `DELETE`, and the directives of a strategic merge patch.
//!
//! The main contracts are those of `deletion_of`, which gives what the options say or that they are none, and of
//! `has_directives`, which tells whether a patch has a member that says how to merge and is no part of the object.
//!
//! Nothing is promised of other members of a body: what isn't named here isn't looked at.
#![tactic(auto)]

mod deletion;
mod directives;
mod value;

pub use deletion::{Deletion, deletion_of};
pub use directives::has_directives;
