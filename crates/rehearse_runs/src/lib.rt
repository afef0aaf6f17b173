//! The command `rehearse`: a run of `serve` over a plant in memory, whose clients send the requests of a plan, and which is
//! compared with that plan, request by request.
//!
//! The main contract is that of `run_rehearse`. Where it ends with status 0, the text that it wrote is the summary of the
//! plan, as one thread works it out, whatever the threads did; the exchanges of each bay are those of its requests, in order
//! (`Agrees`, of diaries; `planned_requests_were_served`, of its connections); and as many lines were written as there are events. The run that is left is one of `serve_runs::run_serve`, so that
//! all laws of runs hold of it (`WasServed`): by the settings and options that the words and files of a rehearsal state, with routes
//! that begin with their APIServices, and over a plant by which each bay is due the connection that sends its requests.
//!
//! Nothing is promised of when the status is 0: a run that doesn't agree with the plan ends with status 6, as one does that
//! ran out of memory. That there is no such run is tested.
//!
//! `rehearse` says it over any plant whose diaries can be read: the run that it answers is one of `run_serve`, and it agrees with the plan
//! (`Agrees`); a run that does anything else is given up.
#![tactic(auto)]

mod command;
mod diary;
mod laws;
mod run;
mod told;

pub use command::{Answer, MemEnded, Rehearsed, run_plan, run_rehearse};
pub use diary::ReadDiary;
pub use laws::planned_requests_were_served;
pub use run::rehearse;
