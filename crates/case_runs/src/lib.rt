//! Whole runs of `serve` over a plant in memory, for programs of stored cases: one bay, and clocks that stand still. A `World` says what
//! a run is asked for, what its clients send, what backends reply, and which tries of its sinks fail.
//!
//! The contract of `parts_of` is that no port was used before, as a plant asks for. What such a run does is the contract of
//! `shared_runs::run_configured`. What it leaves doesn't depend on the turns that threads take, as long as no buffer is full before its
//! allotment is spent: batches end by their number of lines, or at the end.
//!
//! Nothing is promised of a part that memory refuses, which is left out, or of a run that memory or a file refuses: there is none.
#![tactic(auto)]

mod links;
mod parts;
mod posts;
mod run;
mod world;

pub use parts::parts_of;
pub use run::{WorldEnd, WorldHook, WorldLog, run_world};
pub use world::World;
