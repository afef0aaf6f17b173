//! Who changes the table of a run, and by what each request is decided: a law over `shared_runs::RunShared`.
//!
//! The main contract is that of `each_change_is_made_by_a_request`. Of a run whose changes were counted: each bay's requests were
//! decided, one after another, by the file's rows and a prefix of the changes of the run. Those of the changes that a bay made are
//! exactly those that its requests made, in their order, each at its place.
//!
//! Nothing is promised of when a bay sees a change of another.
#![tactic(auto)]

mod laws;

pub use laws::each_change_is_made_by_a_request;
