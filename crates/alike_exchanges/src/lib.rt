//! Exchanges that an auditor can't tell apart, and what follows for the bytes of the sinks.
//!
//! `AlikeExchanges` says what two exchanges have in common: their level, what that level records of them, the stages that are left
//! out, and what became of their events, but for the size of one that was too large. `alike_exchanges_owe_alike` says that they then
//! owe the same events and that the same lines were taken, `parts_make_lines` that the lines of each bay and the turns of the bays
//! give all lines, and `cut_alike_sent_alike` that tries of the same lines which were cut alike sent the same bytes.
//!
//! Nothing runs here: these are laws of definitions.
#![tactic(auto)]

mod laws;

pub use laws::{
    alike_exchanges_owe_alike, cut_alike_sent_alike, cuts_part_lines, parts_make_lines,
    what_exchanges_are_alike, what_exchanges_are_not_alike,
};
