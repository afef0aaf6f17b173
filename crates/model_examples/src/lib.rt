//! Runs that are alike, and runs that are not: the laws of `model_worlds` speak of something, and say something. And what is kept of a
//! body: the laws of steps speak of something too.
//!
//! `a_secret_changes_nothing` has two lists of steps that differ in the body of a request for a secret and in that of its
//! reply. They are alike, so the laws of `model_worlds` hold of them. `a_status_shows` has two lists of steps that differ in
//! the status of a reply. They are not alike, and the log is sent other bytes. `managed_fields_change_nothing` has two
//! bodies that are recorded and differ in managed fields alone, which the policy omits. `an_acting_user_shows` has requests
//! that act as another user: the log names both users.
//!
//! The contracts of the crates that take steps say what a step leaves for each function that says what is kept of a body as
//! events do (`Keeps`). `some_function_keeps` says that there is one, and `steps_are_determined` that such a contract hence
//! allows one state and one answer. It rests on `every_body_is_kept`: by the grammar alone, whether bytes are one JSON text
//! can be decided.
//!
//! Nothing runs here: these are laws of definitions, and the first four are each of one example.
#![tactic(auto)]

mod kept;
mod laws;

pub use kept::{every_body_is_kept, some_function_keeps, steps_are_determined};
pub use laws::{
    a_secret_changes_nothing, a_status_shows, an_acting_user_shows, managed_fields_change_nothing,
};
