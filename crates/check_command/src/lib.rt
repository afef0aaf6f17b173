//! The command `check`: whether a log of audit events conforms to the policy of a file.
//!
//! The main contract is that of `run_check`. Its answer is 0 only where the whole input is lines that conform, and 10 only where one
//! doesn't, with the number and the reason of the first such line, or with those of up to `MOST_LISTED` of them where the words ask for all.
//! Else a call failed, memory ran out, or there are 2^48 lines and more follow. It says what was written with each status. `run_summed` is
//! what the program calls: the same run, which a summary of a log that conforms follows where the words ask for one.
//!
//! Below it `check_log` tells how many lines conform, from the first one on, and why no more do (`Checks`), and `review_log` which lines
//! don't, up to the end of the log (`Reviews`). Memory is that of one line, of what a checker remembers of requests, and of the lines that
//! are listed.
//!
//! Nothing is promised of what a summary holds, of which word is told of words that are no command line, of how much of an input is read
//! ahead, nor of what a real file or standard input holds.
#![tactic(auto)]

mod answer;
mod bad_lines;
mod check;
mod config;
mod next;
mod review;
mod run;
mod summed;
mod words;

pub use answer::reason_text;
pub use bad_lines::{BadLine, BadLines, MOST_LISTED};
pub use check::{CheckEnd, Checked, check_log};
pub use config::configure_check;
pub use review::{Reviewed, review_log};
pub use run::{CheckEnded, run_check};
pub use summed::run_summed;
pub use words::read_check;
