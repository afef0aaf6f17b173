//! The commands `explain` and `check` over a process's files, input and output, and what every command shares: the words, the pages of
//! help, and how an end is told.
//!
//! The top calls are `explain_run::run_desk` and `check_command::run_summed`, which have the contracts. Nothing is promised of standard error.
#![tactic(auto)]

mod check;
mod ending;
mod explain;
mod help;
mod words;

pub use check::checked;
pub use ending::finish_told;
pub use explain::explained;
pub use help::{VERSION, help_on, print_text};
pub use words::words_of;
