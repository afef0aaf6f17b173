//! The columns that `kubectl get apiservices` shows, as kube-aggregator has them, and which requests ask for them.
//!
//! The main contracts: `asks_for_table` says which Accept headers ask for a Table, `service_cell` and `available_cell` give the
//! columns Service and Available, and `duration_text` is how an age is told.
//!
//! Nothing is promised of quality values of an Accept header, which are not looked at.
#![tactic(auto)]

mod accept;
mod age;
mod cells;

pub use accept::asks_for_table;
pub use age::duration_text;
pub use cells::{available_cell, service_cell};
