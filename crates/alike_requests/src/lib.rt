//! Requests of which an auditor sees the same are noted as alike exchanges.
//!
//! `door_seen` lists what the connections of a door asked for, each request with its moments and with what it was answered by, and
//! `a_door_notes_its_requests` says that their exchanges are these and no other. `AlikeSeen` is what two of them must have in common:
//! at None their level alone; above None what was asked, by whom and as whom, and when, an answer with the same status, as much of
//! the bodies as the level shows, and what became of each event that fits in a line. `alike_requests_are_noted_alike` is the law, and
//! `managed_fields_are_not_seen` says that bodies which differ in managed fields alone are kept alike where these are omitted.
//!
//! Nothing runs here: these are laws of definitions.
#![tactic(auto)]

mod laws;

pub use laws::{
    a_door_notes_its_requests, alike_requests_are_noted_alike, managed_fields_are_not_seen,
    what_requests_are_alike,
};
