//! Tests of ports over sockets of the loopback interface, by public calls alone. They stand apart from the
//! crate that they are of, which is not proved once more for them.
#![tactic(auto)]

#[cfg(test)]
mod common;
#[cfg(test)]
mod ends;
#[cfg(test)]
mod requests;
#[cfg(test)]
mod sockets;
#[cfg(test)]
mod starts;
