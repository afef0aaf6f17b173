//! The command `ship`: the lines of a log, posted to a webhook in batches, each as often as it takes, under a throttle.
//!
//! The main contract is that of `run_ship`: which calls of the plant it makes, which lines it posts and how often, which are lost, and how it
//! ends. The definition to read is `Run`, and below it `log_ship`'s `Ships` of `Runs`. A status of 0 says that all lines of the input, from the
//! first one that should be shipped, were posted, and that the counts were written; where lines are lost it is another one.
//!
//! `read_ship` answers what the words ask for, as the definition `ship_command` states it, or the first refusal. Its numbers are in the ranges of
//! their options.
//!
//! Nothing is promised of what a real webhook does with what it answers well, nor of what a real input holds.
#![tactic(auto)]

mod ended;
mod fault;
mod numbers;
mod run;
mod ship;
mod told;

pub use ended::{Shipped, ship_outcome, status_for, status_of, why_of};
pub use fault::ShipFault;
pub use run::run_ship;
pub use ship::{ShipWords, read_ship};
pub use told::told_text;
