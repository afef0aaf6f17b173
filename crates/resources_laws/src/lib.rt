//! Laws of the command `resources`: what a run wrote is read back by a later run.
//!
//! `whole_runs_write_documents` says, of every run that met the contract of `resources_command::run_resources`, that the lines it merged may
//! stand in a document, and that what a whole run wrote is that document. `later_runs_read_them` says that a later run, whose words name a
//! file with these bytes as its earlier document, begins with exactly these lines. Where memory suffices, it refuses the file only where that
//! can't be read, or has more bytes than may be read.
//!
//! Both hold of whatever rows, endpoints and servers. They say nothing of a run whose output or files tell nothing, as the system's, but that
//! the lines it merged may stand in a document.
//!
//! Nothing runs here: these are laws of definitions.
#![tactic(auto)]

mod laws;

pub use laws::{later_runs_read_them, whole_runs_write_documents};
