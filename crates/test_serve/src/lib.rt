//! Whole runs of a server over sockets of this machine: what no clause says, since sockets are opaque and nothing is promised of time.
//!
//! It has tests alone. One thread plays the clients, the backend and the webhook, and another one has the run.
#![tactic(auto)]

#[cfg(test)]
mod counted;
#[cfg(test)]
mod peers;
#[cfg(test)]
mod play;
#[cfg(test)]
mod setting;
#[cfg(test)]
mod ships;
#[cfg(test)]
mod tests;
