//! What the command `rehearse` runs: the requests that it makes, each of one of eight kinds, how they are shared out among
//! bays, the files that it reads, and the summary that they come to, worked out by one thread; and whether the exchanges of a bay
//! are those of the plan.
//!
//! The main contracts are those of `bay_input`, which writes the requests of a bay one after another, of `summary`, which
//! counts over all requests, and of `follows`: where it answers that exchanges follow the plan, there is one for each of the bay's
//! requests, in order, each recorded at the level of its kind, answered the status of its kind, and with all of its events taken by
//! the webhook. `rehearse_runs` compares a run in threads with these.
//!
//! Nothing is promised here of what a server answers: `Kind` states what each request is to be answered. Nor is anything where
//! `follows` answers that exchanges don't.
#![tactic(auto)]

mod bay;
mod counts;
mod exchange;
mod files;
mod kind;
mod plan;
mod request;
mod words;

pub use bay::follows;
pub use counts::{line_count, summary};
pub use files::rehearsal_files;
pub use kind::Kind;
pub use plan::{BAYS, MOST_REHEARSED, Rehearsal};
pub use request::{bay_input, body_of, number_of, share, target_of};
pub use words::{RehearsalFault, read_rehearsal};
