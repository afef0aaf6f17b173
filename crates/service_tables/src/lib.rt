//! The Table of APIServices (`meta.k8s.io/v1`) that `kubectl get apiservices` shows: the columns Name, Service, Available and Age.
//!
//! The main contract is that of `service_table`: it gives exactly the text of the Table of these rows at a moment, with nothing of
//! each object, its metadata or the whole of it. `include_object` says which of these a query asks for.
//!
//! Nothing is promised of the moment, which the caller hands in.
#![tactic(auto)]

mod ages;
mod include;
mod objects;
mod tables;

pub use ages::age_cell;
pub use include::{IncludeObject, include_object};
pub use tables::service_table;
