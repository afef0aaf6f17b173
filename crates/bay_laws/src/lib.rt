//! What stands in all connections of a bay's door together: a law over the contract of `bay_runs::run_bay`.
//!
//! `a_door_is_told_whole` says that the exchanges of all connections stand in the bay's diary in order, that their offers are
//! what the bay's lanes were offered and nothing else, and what the bay keeps. So the laws of `event_offers` on what lanes
//! accept and try hold of a door as of one request, and `connection_laws::refusals_are_counted` too.
//!
//! Nothing runs here: it is a law of definitions.
#![tactic(auto)]

mod laws;

pub use laws::a_door_is_told_whole;
