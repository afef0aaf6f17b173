//! A plain second account of the machine of steps, for its tests: steps that are drawn, a core, the requests that it is given, and
//! the steps that it takes.
//!
//! `Model` says what each step answers and changes where the log is written in batches and the webhook is strict. It knows
//! the rules, and calls nothing of the code of steps. `Dice` draws steps from a seed, and `is_told` compares a core's state
//! with the second account as far as that goes.
//!
//! Contracts promise nothing of these calls. The tests above compare what they answer.
#![tactic(auto)]

mod answers;
mod dice;
mod draw;
mod going;
mod model;
mod said;
mod setting;
mod steps;
mod taking;
mod told;
mod turn;
mod wants;

pub use dice::Dice;
pub use draw::{Draw, kind_of};
pub use model::Model;
pub use said::{Said, word_of};
pub use setting::{Form, core_of};
pub use taking::{answer_to, are_run};
pub use told::is_told;
pub use turn::Turn;
pub use wants::Wants;
