//! Runs of `serve` over a plant in memory, in which calls of the outside fail where a row of a file says so.
//!
//! A file of this kind states a script: what a client sends, or two of them, and what backends and the webhook's peer reply. Another one has a
//! row a run, which names the calls that fail and their numbers. `run_rows` runs each and writes a line of it: how the run and its
//! connection ended, what the client makes of the bytes that it got, what the diary notes of each request, what backends were sent,
//! the tries of the log and of the webhook, and their counts. `lines.rt` says how it is written.
//!
//! Nothing is promised: what is written is compared with what was worked out from the rules, by `examples/fault-account`.
#![tactic(auto)]

mod client;
mod lines;
mod ports;
mod rows;
mod runs;
mod script;
mod setting;

pub use client::push_replies;
pub use lines::Ended;
pub use rows::run_rows;
pub use runs::{Ready, Run, ready_row, run_ready};
pub use setting::files_of;
