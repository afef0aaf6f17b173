//! The steps of a bay that look at the table of APIs, change it, or offer a line to a sink, as code.
//!
//! `find` looks at the table as it was after some of its changes, and `change` decides the change that a request asks for:
//! each answers and leaves exactly what the definitions `found` and `changed` of `model_worlds` say of the bay and of what bays
//! share. The law `looks_are_steps` says that these are steps of the whole. `offer` offers the next line that waits to its sink,
//! and answers and leaves exactly what the definition `step` says of that step. `due` makes what the sinks are due of an exchange
//! at a stage, and `settle` moves an exchange that is over to the others: the other steps of a bay need both. Where memory runs
//! out the answer is `NoMemory`, and nothing changed.
//!
//! A table is made anew for each look, from the opening rows and the changes: nothing is promised of how fast that is. Nothing is
//! written here: a sink that is written to at once is told what the outside answered.
#![tactic(auto)]

mod changing;
mod dues;
mod finding;
mod laws;
mod offering;
mod settling;
mod tables;
mod waiting;

pub use changing::change;
pub use dues::due;
pub use finding::find;
pub use laws::looks_are_steps;
pub use offering::offer;
pub use settling::settle;
pub use tables::{copy_rows, table_after};
pub use waiting::no_wait;
