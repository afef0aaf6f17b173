//! Logs that are made of others, and what bays write to one: laws over definitions of `audit_check`, `session_core` and `bay_runs`.
//!
//! `woven_lines_conform` says that the lines of bays conform to their policy, in whichever order the bays take turns, whichever of their
//! offers were taken. It rests on `exchanges_are_recorded`: each exchange of a bay is recorded as its own request, under the next
//! audit ID of the bay, also one whose reply was cut, and one that memory stopped. `parts_conform` says that some of the lines of
//! a log that conforms, in their order, conform too.
//!
//! A premise is met by what `front_config` reads: the known tokens are those of a token file, or there are none.
//!
//! Nothing runs here: these are laws of definitions.
#![tactic(auto)]

mod laws;

pub use laws::{exchanges_are_recorded, parts_conform, woven_lines_conform};
