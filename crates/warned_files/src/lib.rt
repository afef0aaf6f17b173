//! The files of a configuration, with a warning on standard error of what nobody reads in them.
//!
//! Nobody reads members of a policy and of APIService objects that no public type of Kubernetes has, as `verb` for `verbs`. Nor does anybody
//! read rows of an endpoints file whose key stands in a later row too.
//!
//! The main contracts are those of `unread_in_policy`, `unread_in_services` and `unread_in_endpoints`: the places that they
//! give are exactly those of the file, in order, of which at most 32 are shown and the rest is counted. Members of one
//! object are in the order of their names, as JSON values keep them. A member that Kubernetes' own type has is never among
//! them, whether this program reads it or not, and `metadata` is known as a whole. The contracts of `WarnedFiles` are those of
//! `Files`: what it reads, and how it fails, is what the files below it do.
//!
//! Nothing is promised of standard error, nor of a file that gives no value or another kind of object, which is refused elsewhere: it has no
//! such places. Of members with one name in one object only the last is looked at.
#![tactic(auto)]

mod endpoints;
mod files;
mod kind;
mod places;
#[cfg(test)]
mod tests;
mod walk;
mod warned;

pub use endpoints::unread_in_endpoints;
pub use files::{unread_in_policy, unread_in_services};
pub use places::{MOST_SHOWN, Places};
pub use warned::WarnedFiles;
