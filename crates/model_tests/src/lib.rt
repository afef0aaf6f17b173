//! Tests of the machine of steps, by public calls alone: one request that was worked out by hand, whose steps are told by rows, and two
//! thousand drawn steps that are told by the second account of `model_account`. They stand apart from the crates that they are of, which
//! are not proved once more where only a test changes.
#![tactic(auto)]

#[cfg(test)]
mod drawn;
#[cfg(test)]
mod drawn_steps;
#[cfg(test)]
mod items;
#[cfg(test)]
mod runs;
#[cfg(test)]
mod worked;
#[cfg(test)]
mod worked_request;
