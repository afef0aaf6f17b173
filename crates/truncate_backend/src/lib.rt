//! What an event becomes on its way to a sink: a line that fits, and the traits of those that take lines, hold them,
//! write them and keep account of their tries.
//!
//! The main contract is that of `fit`: the line where it has at most so many bytes, else the line of the event without
//! its objects, else that line's length. The traits tell what a lane accepted, what an outlet gave and what a sink tried,
//! so that a line can be followed from an event to the try that wrote it. `OwnLane` offers its lines to a sink of its
//! own; `MemNotes` keeps each try in room that was reserved.
//!
//! Nothing is promised of when a line is written: a lane that queues lines hands them to an outlet.
#![tactic(auto)]

mod copies;
mod fitted;
mod fitting;
mod lane;
mod laws;
mod mem_notes;
mod notes;
mod outlet;
mod own;
mod sink;
mod tries;

pub use copies::LineCopies;
pub use fitted::Fit;
pub use fitting::fit;
pub use lane::{Lane, Offer};
pub use laws::{
    bytes_join, first_tries_join, lists_join, members_of_fits, no_objects_no_strip, one_try,
    own_sinks_stay, tries_join, tries_keep_what_was_sent, tries_send_their_texts, what_fits,
};
pub use mem_notes::MemNotes;
pub use notes::{NoNotes, Notes};
pub use outlet::Outlet;
pub use own::OwnLane;
pub use sink::BatchSink;
pub use tries::{SinkFault, TryAnswer, TryNote};
