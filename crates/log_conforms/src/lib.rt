//! That the log of a run of `serve` conforms to the policy that it serves by, as `apiaggd check` judges: laws over the contract of
//! `serve_runs::run_serve`.
//!
//! `batched_logs_conform` says it of a sink in mode batch: the lines of its tries, joined, conform, and so do those that were written.
//! `logs_at_once_conform` says it of the modes blocking and strict: the lines that bays put to sinks of their own conform, in
//! whichever order the bays did. Both rest on `lines_of_a_run_conform`, which speaks of the lines of any such offers of a run, whatever
//! its sinks tell. None leaves out a line: those of a request whose reply was cut, and of one that memory stopped, are among them.
//!
//! Not promised: that a line has no line feed; and that a log has lines at all, of which `run_laws::nothing_is_lost_in_batches` speaks. That
//! the known tokens are those of a token file is a premise, which `front_config` meets.
//!
//! Nothing runs here: these are laws of definitions.
#![tactic(auto)]

mod laws;

pub use laws::{batched_logs_conform, lines_of_a_run_conform, logs_at_once_conform};
