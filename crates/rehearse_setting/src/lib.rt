//! With what a rehearsal begins: the words and the files that `serve` reads, and the plant in memory whose clients send the
//! requests of the plan.
//!
//! The main contracts are those of `setting_of`, which says by which words and files the run is configured, and of
//! `rehearsal_plant`, which says what is due to each bay.
//!
//! Nothing is promised of what the delegate and the webhook's peer reply.
#![tactic(auto)]

mod configured;
mod ports;

pub use configured::{Setting, setting_of};
pub use ports::rehearsal_plant;
