//! Servers of APIs asked for the resources of a group version.
//!
//! The main contract is that of `fetch`: it makes one call, with the stated bytes, and gives the array that the reply lists, exactly where
//! all bytes of the link are a reply that came to its frame's end and lists one. Otherwise it says why there is none: by the reply, or since
//! the dial or its link failed, which their counts tell.
//!
//! Nothing is promised of how long a server takes, nor of how many bytes it sends beyond those that are kept.
#![tactic(auto)]

mod fetching;
mod listing;
mod version;

pub use fetching::fetch;
pub use listing::Listing;
pub use version::group_version;
