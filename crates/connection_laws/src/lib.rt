//! What stands in all requests of a connection together: laws over the contract of `session_core::serve_connection`.
//!
//! `a_connection_is_told_whole` says that the exchanges of a connection stand in the bay's diary in order, that each was offered
//! what its events are due, or a prefix where memory stopped it, and that the offers of all of them are what its lanes were
//! offered, one after another, and nothing else. So the laws of `event_offers` on what lanes accept and try hold for a
//! connection as for one request. `refusals_are_counted` says that no offer is noted as Full or Failed that its lane did not
//! count.
//!
//! `a_content_connection_has_all_requests_served` says that only a wish of the connection leaves requests of its input unserved
//! where it ends with `Stopped`.
//!
//! Nothing runs here: these are laws of definitions.
#![tactic(auto)]

mod laws;

pub use laws::{
    a_connection_is_told_whole, a_content_connection_has_all_requests_served, refusals_are_counted,
};
