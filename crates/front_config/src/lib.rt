//! What the program is told: the words of its command line, and the files that they name.
//!
//! The main contracts are those of `read_words`, whose answer is the one that the definition `command_of` states for the
//! words, and of `load`, whose answer is the one that `load_of` states for what the reads of the files gave, one after
//! the other. A file that can't be read is reported only where the files' own count of faults rose. How words spell options
//! is said in `command_options`.
//!
//! Nothing is promised of what a real file holds, nor of files that the words don't name.
#![tactic(auto)]

mod command;
mod fault;
mod files;
mod words;

pub use command::{Command, ExplainWords};
pub use fault::{FileFault, LoadFault, Which};
pub use files::{Loaded, load};
pub use words::read_words;
