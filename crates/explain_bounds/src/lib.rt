//! That `explain` leaves out no event for its length: a law over the contract of `explain_run::run_desk`.
//!
//! `no_event_of_explain_is_too_large` speaks of runs whose limit of a line is `request_bounds::line_limit` of their token file, or more,
//! and whose moment is before the year 9999, as every `front_base::Moment` is. Each request of such a run has lines for all its events.
//!
//! Nothing runs here: this is a law of definitions.
#![tactic(auto)]

mod laws;

pub use laws::no_event_of_explain_is_too_large;
