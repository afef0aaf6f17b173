//! The requests of a prober to a front door.
//!
//! The main contracts are those of `patch_request`, the bytes of a merge patch of the conditions of one APIService, with the condition
//! `Available` as kube-aggregator writes it; and of `rows_request`, the bytes that ask for the list of APIServices.
//!
//! Nothing is promised of what a front door makes of it.
#![tactic(auto)]

mod listing;
mod requests;

pub use listing::rows_request;
pub use requests::patch_request;
