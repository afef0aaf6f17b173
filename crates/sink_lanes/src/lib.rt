//! The lanes of all bays for one audit sink, with its drainer in batch mode.
//!
//! `off_lanes`, `own_lanes` and `queued_lanes` make them. The main contract is that of `end_lanes`, which takes them back once no
//! bay offers any more: each accepted line of a queue stands in the tries of its sink once, in its bay's order, and no other line
//! does. `lanes_stay_together` says that lanes and a drainer which belonged together when they were made still do, whatever bays
//! offered and whatever the drainer took.
//!
//! Nothing is promised of which mode a sink has: whoever makes the lanes picks it.
#![tactic(auto)]

mod ending;
mod laws;
mod making;
mod room;

pub use ending::{SinkEnd, end_lanes};
pub use laws::lanes_stay_together;
pub use making::{SinkLanes, off_lanes, own_lanes, queued_lanes};
pub use room::SinkRoom;
