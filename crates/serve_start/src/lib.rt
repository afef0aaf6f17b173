//! What a run of `serve` begins with: words and files are read, the address is taken, and threads watch its start and its end. One of them
//! writes its metrics while it lasts.
//!
//! Which words and files are refused, and as what, is said by `serve_command::Serve::configure`. Nothing is promised of sockets and
//! threads, nor of standard error.
#![tactic(auto)]

mod ending;
mod metrics;
mod monitor;
mod places;
mod ready;
mod start;

pub use ending::{Ending, finish, no_memory, port_fault};
pub use places::{address_text, target};
pub use ready::{Ready, prepare};
pub use start::{Watcher, shortage, threads_of};
