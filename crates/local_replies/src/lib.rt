//! What this server answers itself: which paths are local, what requests on them want, and the replies.
//!
//! The main contracts are those of `LocalPaths::local`, which finds the local path that a path is by the table of the
//! definition `local_of`; of `serve_local`, which answers a request on a local path, and makes the change that it asks
//! for, as the relation `IsServed` states; and of `refusal`, which gives the Status of every code byte for byte. A dry run is
//! answered as the change would be, and none is made: `dry_runs_change_nothing`.
//!
//! Nothing is promised of who asks: the caller knows the user.
#![tactic(auto)]

mod errand;
mod kind;
mod laws;
mod local;
mod looked;
mod paths;
mod reply;
mod serve;
mod status;
mod tabulated;

pub use errand::{LocalErrand, local_errand};
pub use laws::{
    a_named_list_has_one_at_most, a_patch_is_answered_its_object, dry_runs_change_nothing,
    lengths_of_refusals, moments_count_in_tables, one_user_is_served, only_masters_write,
    refusals_in_order, slashes_at_ends_do_not_count,
};
pub use local::Local;
pub use paths::LocalPaths;
pub use reply::{Content, LocalReply};
pub use serve::{serve_errand, serve_local};
pub use status::{front_refusal, refusal, status_reply, success};
