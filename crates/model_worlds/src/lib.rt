//! Two worlds that differ only in what lies below the recorded levels: what is equal in both, over every interleaving.
//!
//! `Step` is one step of the whole, atomic, and a list of steps is one way in which connection threads and the writers of
//! the sinks took turns. The definition `step` says what a step leaves and answers, in the terms of `audit_core`. The main
//! contract is that of `model_worlds`: where two states look the same (`low`), and two lists of steps look the same where
//! they are taken (`Alike`), each step is taken in both worlds or in neither, and afterwards the tables are equal, every
//! sink is equal to the last byte, and the states look the same. `what_is_alike` and `what_is_not_alike` say in plain
//! cases what looks the same. `lines_stay_in_order` says that no line is lost or written twice on its way to a try.
//!
//! These are laws of definitions: no code of this crate takes a step. Nothing is promised of equal times, of what clients
//! are sent, or of runs that lack memory.
#![tactic(auto)]

mod items;
mod laws;
mod state;
mod step;

pub use items::Items;
pub use laws::{
    an_example_runs, lines_stay_in_order, one_secret_reaches_no_sink, two_worlds, what_is_alike,
    what_is_not_alike,
};
pub use state::{Bay, Exchange, Limits, Open, Phase, Shared, SinkState, State, Try, Waiting};
pub use step::{Step, StepAnswer, TryTold};
