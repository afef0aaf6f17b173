//! The handles of a run of `ship` over the system: a webhook that dials for each post, and the system's clock. No port listens.
//!
//! The contracts are those of `Plant` and of the ports. These handles are opaque: the plant tells none of its calls, and its webhook no tries.
//! Of all other handles it makes none.
//!
//! Nothing is promised of what a socket holds, nor of what is said of the progress.
#![tactic(auto)]

mod notes;
mod plant;
mod share;

pub use notes::PostNotes;
pub use plant::ShipPlant;
pub use share::PostShare;
