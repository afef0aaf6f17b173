//! Batches that are posted again where a post fails, under a token bucket.
//!
//! The main contract is that of `Sender::send`: the lines of a batch are posted one time after another, up to the first post that is done,
//! at most so many times; before each post but the first the clock rests until a wait has passed, which doubles; and each post has a token of
//! its own. The definitions to read are `Sendings`, `Pauses` and `Buckets`. The law `few_posts_between` says how many posts there are between
//! two moments, and `posts_wait` how far two posts of a batch are apart.
//!
//! Time is what the clock's moments say, and a wait ends after `MOST_RESTS` rests whatever they say. Nothing is promised of when they come.
#![tactic(auto)]

mod bucket;
mod laws;
mod pause;
mod sender;
mod sent;

pub use bucket::{Bucket, TOKEN};
pub use laws::{clocks_go_on, few_posts_between, few_posts_of_a_batch, posts_wait};
pub use pause::{MOST_RESTS, MOST_WAIT};
pub use sender::Sender;
pub use sent::Sent;
