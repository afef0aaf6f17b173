//! Audit policies in JSON (`audit.k8s.io/v1`): what a text states.
//!
//! The main contract is that of `read_policy`, which gives exactly the policy that a text states, or the first of its
//! faults in a stated order.
//!
//! Nothing is promised of members that a policy doesn't know: they are ignored.
#![tactic(auto)]

mod fault;
mod members;
mod read;
mod reading;

pub use fault::PolicyFault;
pub use read::read_policy;
