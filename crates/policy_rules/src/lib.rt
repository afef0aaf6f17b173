//! Audit policies (`audit.k8s.io/v1`): which level a request is recorded at, and which stages and whether
//! managed fields are left out.
//!
//! The main contract is that of `decide`, whose answer is that of the first rule that matches. Contracts see a policy as a
//! record of lists.
//!
//! Nothing is promised of what is done with a decision: recording, and leaving managed fields out, is for the crates above.
#![tactic(auto)]

mod decision;
mod laws;
mod matching;
mod omit;
mod policy;
mod rule;

pub use decision::{Decision, decide};
pub use laws::{
    elements_match_by_lists, first_match_decides, no_match_records_nothing, paths_are_named,
    patterns_name_resources, policy_stages_always_count, prefixes_name_paths, resources_are_named,
    rules_decide_on_managed_fields, rules_match_by_lists,
};
pub use omit::Omit;
pub use policy::{Policy, Rules};
pub use rule::{GroupResources, Resources, Rule};
