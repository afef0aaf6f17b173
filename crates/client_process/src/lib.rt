//! The commands that are clients of a server, `ship`, `resources` and `probe`, over this process's files, sockets, clock, input and output.
//!
//! The top calls are `ship_command::run_ship`, `resources_command::run_resources` and `probe_command::run_probe`, which have the contracts.
//! Nothing is promised of standard error, nor of when an end of standard input is seen.
#![tactic(auto)]

mod going;
mod probe;
mod reasons;
mod resources;
mod ship;
mod token_files;

pub use probe::probed;
pub use resources::fetched;
pub use ship::shipped;
