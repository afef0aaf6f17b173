//! The lane of a bay for one audit sink, whatever the sink's mode.
//!
//! The main contract is that of `AnyLane`'s `offer`: a sink that is off accepts nothing, a queue's lane does what
//! `shared_queue` says of it, and a sink of the bay's own what `truncate_backend` says of it.
//!
//! Nothing is promised of which mode a sink has: whoever makes the lane picks it.
#![tactic(auto)]

mod lane;

pub use lane::AnyLane;
