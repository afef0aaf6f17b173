//! A table of APIs that all bays of a server share.
//!
//! The main contract is that of `share_routes`: as many routes as there are bays, numbered in their order, all of one history, with
//! the rows of the table that was read and no change yet. Who calls it picks the name of that history, and keeps the routes within
//! that call.
//!
//! Nothing is promised of when a bay sees a change of another: that is tested.
#![tactic(auto)]

mod share;

pub use share::{BayRoutes, BayWriter, SharedTable, share_routes};
