//! Whether the services of APIService objects are available, by probes of them (Kubernetes, "Aggregation Layer": the condition
//! `Available`).
//!
//! The main contracts are those of `Watcher`, which says when a row's condition is to change: after so many probes one after another that are
//! all good, or all bad; and of `patch_text`, which gives the merge patch that says so. The law `patches_change_the_status_alone` says what a
//! door's object becomes by it, whatever was changed there before. The law `earlier_probes_decide_nothing` says that what a watcher keeps of
//! the probes says as much as all of them.
//!
//! Nothing is promised of what a probe is, nor of who takes the patch.
#![tactic(auto)]

mod laws;
mod patch;
mod watcher;

pub use laws::{earlier_probes_decide_nothing, patches_change_the_status_alone};
pub use patch::{patch_text, told_of};
pub use watcher::{MOST_PROBES, MOST_THRESHOLD, Watcher};
