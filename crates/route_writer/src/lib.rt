//! Who changes the table that bays share, and how bays look into it.
//!
//! The main contracts are those of `RouteWriter::change`, by which a change that is taken is published after all that was, and
//! one that is refused leaves what is published; and of `look`, which asks a copy that is no older than what was seen. Each
//! change that is published is counted in a share of who made it: `RouteWriter::audit` shows that all shares count no other.
//!
//! Nothing is promised of how long a change waits for another, or that a look-up sees a change of another bay: that is tested.
#![tactic(auto)]

mod look_up;
mod writer;

pub use look_up::look;
pub use writer::{RouteWriter, change_locked};
