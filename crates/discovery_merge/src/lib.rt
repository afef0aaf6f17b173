//! Discovery: the API groups that a table's rows make, in the order of kube-aggregator, and their documents.
//!
//! The main contracts are those of `group_list` and `group`: any rows give exactly the bytes of an `APIGroupList`, and
//! of an `APIGroup` where a row has that group. `sorted_groups` gives the same groups as values. What it is to be
//! sorted is said by the laws `orders_are_total` and `one_stable_sort`.
//!
//! Nothing is promised of the resources in a group: those are told by the server that a row names.
#![tactic(auto)]

mod documents;
mod groups;
mod kept;
mod laws;
mod lent;
mod order;

pub use documents::{GroupFault, group, group_list};
pub use groups::{Group, Groups};
pub use kept::Documents;
pub use laws::{one_stable_sort, orders_are_total};
pub use lent::sorted_groups;
