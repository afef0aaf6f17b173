//! Where lines wait between a bay and a drainer.
//!
//! The main contract is that of `RingLane`, which is a lane and an outlet on one thread. It is full exactly where it holds
//! its capacity, and lines come out as they went in: `rings_keep_their_parts` says of every ring that the lines it accepted
//! are those that were taken from it, followed by those that it holds.
//!
//! A ring tells its lists as long as copies of them fit into the room that was reserved; a ring without such room works
//! the same and tells nothing of them. Nothing is promised of how long a line waits.
#![tactic(auto)]

mod laws;
mod making;
mod ring_lane;

pub use laws::rings_keep_their_parts;
pub use making::ring;
pub use ring_lane::RingLane;
