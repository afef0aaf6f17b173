//! Audit events: what a level records of a request and its reply, and the event that it owes at a stage.
//!
//! The main contract is that of `event_at`: its answer is the definition `event`, which is made of the view that the
//! level has of the facts and of nothing else. `levels_hide` says in plain cases what reaches no event of a level, and
//! `stages_hide` what reaches no event of a stage. `event_from` makes the last event of a request and copies nothing.
//! `kept` says how a body is kept for an event, and `request_show` and `reply_show` what is shown of one.
//!
//! Nothing is promised here of how an event is written, or of which stages a policy omits.
#![tactic(auto)]

mod due;
mod event;
mod facts;
mod keeping;
mod laws;
mod making;
mod show;

pub use due::{reply_due, reply_show, request_due, request_show};
pub use event::{Event, ObjectRef};
pub use facts::{Facts, Kept};
pub use keeping::{MOST_KEPT_BYTES, kept, kept_as};
pub use laws::{both_users_are_shown, levels_hide, one_kept, stages_hide, views_settle};
pub use making::{event_at, event_from, object_ref};
pub use show::Show;
