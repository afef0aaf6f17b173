//! The run of `serve` as words and files ask for it, over routes of the caller's, and over one table of APIs that all its bays share.
//!
//! The main contract is that of `run_shared`: what `serve_runs::run_serve` says, of routes that all have one history. At the end
//! what each bay saw is the beginning of one list of changes. Who calls it picks the name of that history. `run_configured` says what
//! `run_serve` does of the options that the words state (`options_of`), and of the settings that `settings_of` makes of words and files.
//!
//! Nothing is promised of when a bay sees a change of another: that is tested; nor of what words and files may be: `serve_config` says that.
#![tactic(auto)]

mod configured;
mod history;
mod setup;
mod shared;
mod unnamed;

pub use configured::{can_run, run_configured};
pub use setup::settings_of;
pub use shared::{SharedEnd, run_shared};
