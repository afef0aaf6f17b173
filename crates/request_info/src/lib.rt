//! What a request asks for: verb, resource, name and namespace, out of its method and its target, as the API server's
//! type RequestInfo has them.
//!
//! The main contract is that of `info`: for every method and every target its answer is the one that the definition
//! `info_of` states, a refusal included. The definition is a table by the parts of the path.
//!
//! Nothing is promised about whether such a resource exists, or whether somebody serves it.
#![tactic(auto)]

mod fault;
mod laws;
mod parts;
mod query;
mod request;
mod resource;
mod running;
mod selection;
mod target;
mod verb;
mod watch;

pub use fault::InfoFault;
pub use laws::{
    collections_have_verbs, empty_selectors_are_none, end_slashes_do_not_count,
    escapes_stand_for_bytes, methods_have_verbs, paths_are_in_an_api, paths_begin_with_verbs,
    paths_name_resources, queries_give_no_name, slashes_part_paths, the_first_watch_counts,
    the_method_gives_the_verb_alone,
};
pub use parts::{parts_of, split};
pub use query::query_value;
pub use request::{audit_info, info};
pub use running::long_running;
pub use selection::{asks_else, asks_selection, asks_trial, selected_name};
