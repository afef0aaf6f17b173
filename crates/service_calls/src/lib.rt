//! Calls of servers of APIs and of front doors, by commands that serve nothing.
//!
//! The main contracts are those of `fetch_reply` and `ask`: each makes one call of the dial, with these bytes. `fetch_reply` answers the
//! status and the body of the reply that all bytes of the link are, exactly where they are one that came to its end; `ask` answers the status
//! of its head alone. `list_request` has the bytes that ask a server for the resources of a group version.
//!
//! Nothing is promised of how long a server takes, nor of how many bytes it sends beyond those that are kept.
#![tactic(auto)]

mod asking;
mod fetching;
mod reply;
mod request;
mod void;

pub use asking::{ask, is_good};
pub use fetching::fetch_reply;
pub use reply::Fetched;
pub use request::{address_text, host_of, list_path, list_request};
