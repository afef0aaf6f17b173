//! The steps Begin, Started and Finish of a bay, as code: a request was received, a long-running request's reply starts, and a
//! request is answered.
//!
//! `begin`, `start` and `finish` answer and leave exactly what the definition `step` of `model_worlds` says of that step, where what
//! is kept of a body is what events keep of it. Where memory runs out the answer is `NoMemory`, and nothing changed. `handling` says
//! how an exchange is handled by the rows that it saw, and `is_ready` whether it can be answered.
//!
//! Nothing is sent here: a step is told what the outside answered.
#![tactic(auto)]

mod answering;
mod beginning;
mod finishing;
mod starting;

pub use answering::{handling, is_proxied, is_ready};
pub use beginning::begin;
pub use finishing::finish;
pub use starting::start;
