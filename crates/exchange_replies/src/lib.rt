//! How a request that is handled so is answered: by the backend that it is sent on to, or by this server itself.
//!
//! The main contracts are those of `forward` and `reply_to`. `forward` sends a request on once where it is to be sent on, to
//! the address and with the bytes of `sent_on`, and answers what all bytes of the link say, or the head of a reply that streams
//! beside its open link. `reply_to` writes the reply and hands that link back: of a backend's whole reply the head without what
//! is for this server alone, and the body; of one that streams the head, and the body decoded from all bytes of the link, as
//! far as they go; otherwise a reply of this server's own. Its head has what the `ReplyTag` says. It answers how the reply ended,
//! and what was kept of its body.
//!
//! Nothing is promised of when a reply or a piece of it comes, nor that a piece is written before the next is read.
#![tactic(auto)]

mod client;
mod own;
mod reached;
mod refusals;
mod reply_tag;
mod sending;
mod sent_on;
mod statuses;
mod streaming;
mod writing;

pub use reached::Reached;
pub use refusals::refusal_text;
pub use reply_tag::ReplyTag;
pub use sending::forward;
pub use sent_on::SentOn;
pub use statuses::statuses_are_final;
pub use streaming::{ReplyEnd, give_back, reply_to};
pub use writing::{Wrote, put_text};
