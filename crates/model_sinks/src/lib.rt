//! The steps of a sink's writer, and the offer of a line to a sink, as code.
//!
//! `take` takes a line from a sink's buffer, and `cut` writes the lines that were taken: each answers and leaves exactly
//! what the definition `step` of `model_worlds` says of that step, so that its laws speak of what this code does. `push_due`
//! is the part of an offer that a sink sees. Where memory runs out, or a count is at its type's end, the answer is
//! `NoMemory`, and nothing changed.
//!
//! Nothing is written here: a `cut` is told what the outside answered, and keeps it.
#![tactic(auto)]

mod batches;
mod cutting;
mod laws;
mod lists;
mod pushing;
mod setup;
mod taking;

pub use cutting::cut;
pub use laws::turns_are_steps;
pub use lists::push_at;
pub use pushing::push_due;
pub use setup::CoreSetup;
pub use taking::take;
