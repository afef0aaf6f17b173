//! The whole as one machine: connection threads, the table of APIs and the sinks, one step after another.
//!
//! `Core::step` answers and leaves exactly what the definition `step` of `model_worlds` says, for each of its eight kinds of
//! step, and `run_steps` what `after_steps` and `answers_to` say. So the laws of `model_worlds` and `model_core`, which speak
//! of every list of steps, speak of what this code does. A step that can't be taken answers `Idle` and changes nothing.
//! Where memory runs out the answer is `NoMemory`, and the state is as it was before that step.
//!
//! Nothing is received, sent or written here: a step is told what the outside answered.
#![tactic(auto)]

mod running;
mod starting;
mod turning;
mod whole;

pub use running::run_steps;
pub use whole::Core;
