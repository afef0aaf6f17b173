//! That no event of a run of `serve` is too large for a line: laws over the contract of `serve_runs::run_serve`.
//!
//! `no_event_of_a_run_is_too_large` says it of runs whose limit of a line is `request_bounds::line_limit` of their token file, or more.
//! It holds of each exchange of each bay, also of one whose reply was cut and of one that memory stopped.
//!
//! `requests_of_a_run_were_read` says of each of these exchanges that its request was read from bytes that begin with it. Not promised: that
//! these bytes are those of its connection, of which the contract of `session_core::serve_connection` speaks.
//!
//! Nothing runs here: these are laws of definitions.
#![tactic(auto)]

mod laws;

pub use laws::{no_event_of_a_run_is_too_large, requests_of_a_run_were_read};
