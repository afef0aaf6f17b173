//! Whether an audit log conforms to a policy: each line is that of an event, agrees with the request that it tells of,
//! is recorded as the policy decides, and comes in the order of stages.
//!
//! The main contract is that of `Checker::line`: unless memory runs out, its answer is Ok exactly where the definition
//! `Conforms` holds of the line after those that were accepted, and otherwise the first of the reasons why not, in the order
//! of `LineFault`. The law `whole_logs_conform` says what that comes to for a whole log, and `own_lines` that the lines of
//! a request conform as this server answers it; `recorded_lines` says it also of one whose reply was cut or never came.
//!
//! Nothing is promised of what a log leaves out: a request without any line, or without its last one, is no fault.
#![tactic(auto)]

mod block;
mod checker;
mod decided;
mod fault;
mod laws;
mod place;
mod seen;
mod users;

pub use checker::Checker;
pub use fault::LineFault;
pub use laws::{one_judgement, own_lines, recorded_lines, whole_logs_conform};
