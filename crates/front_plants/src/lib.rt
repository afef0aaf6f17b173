//! The handles of a run: the trait `Plant` makes all that a run takes from the outside, so that one text runs over ports in
//! memory, which tests and proofs see whole, and over sockets and files. `MemPlant` is the one in memory.
//!
//! The contracts of `Plant` say which calls are told, that a new handle has done nothing yet, that the door of a bay gives
//! the connections that were due to it, and that a call fails for its port only where the plant's own count of faults rose. A
//! failed call says which one it was and why, and the plant tells that of the last one.
//!
//! Nothing is promised of what a handle does afterwards: that is its own trait's matter.
#![tactic(auto)]

mod call;
mod call_notes;
mod failures;
mod mem_plant;
mod parts;
mod plant;
mod unused;

pub use call::{PlantCall, PlantFail, PlantFault, PlantPort};
pub use call_notes::MOST_NOTED_CALLS;
pub use failures::LISTED_ERRNO;
pub use mem_plant::MemPlant;
pub use parts::{MemParts, NotesRoom};
pub use plant::{MOST_ALLOTTED, Plant};
