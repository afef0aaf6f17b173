//! How the audit events of a request go to the lanes of a bay, one stage after another.
//!
//! The main contract is that of `offer_stage`: of each event that is owed at a stage, what fits is offered to the log and
//! then to the webhook, as far as these are on, and what became of each is noted. Where memory runs out, nothing of the stage
//! was offered. The laws of `laws.rt` put stages together: what a whole request is due, what lanes have accepted then, and
//! which outcomes there can be.
//!
//! Nothing is promised of what a lane does with a line that it took.
#![tactic(auto)]

mod lanes;
mod laws;
mod offering;

pub use lanes::Lanes;
pub use laws::{
    each_lane_gets_its_lines, lanes_stay, later_stages_refuse_nothing, offers_join,
    only_these_outcomes, stages_make_up_what_is_owed,
};
pub use offering::{MOST_OFFERED, offer_event, offer_stage};
