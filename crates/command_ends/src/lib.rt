//! How a command of `apiaggd` ends, and the system's files, input and output that it is run over.
//!
//! A `Status` is what the program ends with. `words_outcome` and `load_outcome` say which one words and files have that are
//! refused, and what more is told of it.
//!
//! `ReaderSource`, `WriterSink` and `SystemFiles` are the few lines between a command and the system, and tests alone show
//! what they do: nothing is promised of what a real file or terminal holds.
#![tactic(auto)]

mod adapters;
mod ended;
mod status;
mod system_files;

pub use adapters::{ReaderSource, WriterSink};
pub use ended::{Ended, Outcome, load_outcome, words_outcome};
pub use status::Status;
pub use system_files::SystemFiles;
