//! How a request is sent on to a backend, and how its reply comes back (RFC 9110, section 7.6).
//!
//! The main contract is that of `exchange`: it dials once, sends the head and the body, and answers what all bytes of the link
//! say, a whole reply, a reply that streams, none that is taken, or an end too early; the law `links_say_one_thing` makes each
//! of these stand exactly where the bytes say it. A failed dial and a failed link are answered only where their counts rose.
//! `forward_head` and `client_head` give the exact head that a backend gets for a request, and the exact head that a client
//! gets for a reply. `the_door_says_who_asks`, `forwarded_heads_are_framed` and `forwarded_heads_are_read_back` say in a
//! reader's words what a backend can rely on.
//!
//! Nothing is promised of what a backend makes of a request, nor of a reply whose trailers or upgrades matter: neither passes.
#![tactic(auto)]

mod client;
mod forwarded;
mod got;
mod hop;
mod kind;
mod laws;
mod link_exchange;
mod reply;
mod talk;
mod target;

pub use client::client_head;
pub use forwarded::forward_head;
pub use got::links_say_one_thing;
pub use kind::{MOST_INTERIM, MOST_WHOLE_BYTES, whole_frame};
pub use laws::{forwarded_heads_are_framed, forwarded_heads_are_read_back, the_door_says_who_asks};
pub use link_exchange::{LinkAnswer, exchange};
pub use target::Target;
