//! Two whole runs of which an auditor sees the same: laws over the contract of `serve_runs::run_serve`.
//!
//! `alike_requests_leave_the_same_audit` goes from requests to bytes. Its premise is of each bay: it served requests that look alike at
//! their levels (`alike_requests`), pairwise and in order; the same became of each offer of a line to a sink; and of each sink: its
//! tries were cut alike, and a sink that all bays share has the lines of the same bays in the same order. Then each sink was sent
//! the same bytes. `same_audit` and `same_audit_at_once` say it of the exchanges that bays had.
//!
//! `alike_requests_leave_the_same_lines` speaks of the lines that a sink in mode batch was tried with, and has no premise of what ports
//! record: so it speaks of runs over TCP, too. Of each bay these lines are the same.
//!
//! The laws of bytes speak of plants whose ports record what they were given. Over TCP none does, and these laws say nothing.
//! Equal drops are premises of all laws, equal cuts of those of bytes. That a schedule gives them is said of steps alone, by `two_worlds`.
#![tactic(auto)]

mod laws;

pub use laws::{
    alike_requests_leave_the_same_audit, alike_requests_leave_the_same_lines,
    alike_requests_make_alike_bays, same_audit, same_audit_at_once,
};
