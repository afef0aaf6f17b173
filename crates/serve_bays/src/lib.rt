//! What a run is made of: the bays, each with its own door, dial, clock and diary, its routes and its lanes; and the lanes of all bays for the
//! log and for the webhook, whatever mode each sink has.
//!
//! The main contract is that of `make_bays`: there is a bay for each table of routes, numbered from 0 in their order. None has
//! served anything yet, the door of each gives what the plant says is due to it, and each has the lanes that it was given. The
//! plant had these calls and no other: for each bay in turn its dial, its door, its clock and its diary (`bays_calls`). With an
//! error it had some of them, from the first one on.
//!
//! By `side_lanes` a sink that is off has no lane, one in batch mode has one sink and a queue that all bays share, and one
//! in the other modes has a sink for each bay. A `SinkSide` is such a sink: the log, or the webhook. `RunOptions` is what the words of a
//! run say.
//!
//! `lanes_are_served` says what is left of lanes after a run: each line that a queue accepted stands in the tries of the sink once, in its
//! bay's order. `done_tries_are_written` says that a line of a try that is Done was written whole.
//!
//! Nothing is promised of what bays and sinks do afterwards.
#![tactic(auto)]

mod bays;
mod lanes;
mod laws;
mod options;
mod sides;

pub use bays::{SharedParts, make_bays};
pub use lanes::side_lanes;
pub use laws::{
    calls_in_part, calls_join, done_tries_are_written, lanes_are_served, new_sinks_send_their_tries,
};
pub use options::RunOptions;
pub use sides::{LogSide, SinkSide, WebhookSide};
