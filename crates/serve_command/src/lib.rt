//! The command `serve`, from its words and files to the end of its run.
//!
//! The main contracts are those of `Serve::configure` and `Serve::run`. `configure` reads words and files: where they are refused, the
//! status is that of the first refusal, and nothing was opened. Where they aren't, a `Serve` is left, which nothing else makes: its words
//! are those of the command line, its settings and the APIServices that its table begins with those of the files (`IsServe`). `run` is
//! `shared_runs::run_shared` by exactly these. `serve` is both, one after the other, over a plant that is there before: the definition to
//! read is `Run`.
//!
//! A plant over sockets is made once words are known, since they name its address and its limits, so the program calls both. `status_of`
//! gives the status of the program for the end of a run.
//!
//! Nothing is promised of when a bay sees a change of another, nor of what a real file holds.
#![tactic(auto)]

mod configured;
mod ended;
mod prepared;
mod served;

pub use configured::Ran;
pub use ended::status_of;
pub use prepared::Serve;
pub use served::{Served, serve};
