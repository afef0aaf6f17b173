//! One bay's routes over a table that all bays share.
//!
//! The main contract is the trait `Routes` itself, of `SharedRoutes`: what was seen only grows, look-ups answer from the rows
//! after it, and after a change of its own it ends with that change. Which history that is never changes. Each entry has the
//! number of the bay that made it, and `into_seen` hands on how many are its own. Where all bays' own are as many as the history
//! has entries, each bay's own changes are exactly those of its number: `counted_changes_are_made`.
//!
//! Nothing is promised of how long a change waits for another.
#![tactic(auto)]

mod laws;
mod shared;

pub use laws::counted_changes_are_made;
pub use shared::SharedRoutes;
