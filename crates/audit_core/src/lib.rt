//! One exchange as values: what a request wants, how it is handled, what is known of it then, and which audit lines it
//! owes.
//!
//! The main contract is that of `settle`: what a request wants is the definition `errand_in`, which no table decides; it
//! is handled by the rows that its routes had seen, as `handling_of` says; what it is answered is `status_of` and
//! `body_of`; and the facts that its events show are those of `AreFacts`. `push_owed` writes the lines of the events of
//! `owed`, each fitted to a maximum.
//!
//! Nothing is promised of where requests come from or lines go, nor of when a moment was.
#![tactic(auto)]

mod answer;
mod answered;
mod attributes;
mod errand;
mod facts;
mod judged;
mod laws;
mod link_note;
mod offers;
mod owed;
mod route;
mod routed;
mod routing;
mod settings;
mod settling;
mod sinks;
mod stamp;
mod unread;

pub use answer::{kept_answer, status_of};
pub use answered::Answered;
pub use attributes::Attributes;
pub use errand::Errand;
pub use facts::{facts_of, first_facts, kept_sent};
pub use judged::{Judged, judge};
pub use laws::{
    dry_runs_make_no_change, errands_have_moments_in_tables, lines_fit, metadata_shows_no_body,
    none_owes_nothing, one_thread_decides, refusals_come_in_order, users_are_told_apart,
};
pub use link_note::LinkNote;
pub use offers::{OfferNote, Offers, Outcome, has_refused};
pub use owed::{LineForm, omits, push_owed};
pub use routed::{Handling, Routed};
pub use routing::handle_errand;
pub use settings::Settings;
pub use settling::settle;
pub use sinks::{Sink, SinkMode};
pub use stamp::Stamp;
