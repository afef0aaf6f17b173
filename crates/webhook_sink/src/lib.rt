//! The audit webhook: each try is one POST of an `EventList` of `audit.k8s.io/v1`, over a link of its own.
//!
//! The main contract is that of `WebhookSink::put`: it dials once and sends the post, or a prefix of it where a write
//! fails, and notes how many bytes were sent. Its answer is what all bytes of the link say: the first final head decides,
//! after at most 8 interim ones. `check_url` says which URLs a webhook can have. All memory is taken at the start.
//!
//! Nothing is promised of what a peer does with the lines. The body of a reply isn't read.
#![tactic(auto)]

mod buffer;
mod hook_url;
mod laws;
mod link_exchange;
mod list;
mod post;
mod reply;
mod webhook;

pub use buffer::MOST_BUFFERED_BYTES;
pub use hook_url::{HookFault, HookUrl, check_url, read_url};
pub use laws::{answers_are_exact, calls_join, one_answer};
pub use list::{list_head, list_length, list_tail};
pub use reply::{MOST_INTERIM, Reply};
pub use webhook::WebhookSink;
