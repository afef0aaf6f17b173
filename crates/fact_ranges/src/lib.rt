//! The facts of an exchange are values of their types: their texts are UTF-8, and their numbers are below the bounds of their types.
//!
//! The main contract is that of `facts_are_in_range`: whoever holds facts knows it of them. Contracts see texts and numbers
//! without these bounds, so a contract above that is told of facts alone cites `AreInRange`.
//!
//! Nothing is promised of bodies, nor of the path and the other members of an `Info` that no event shows.
#![tactic(auto)]

mod facts;
mod values;

pub use facts::facts_are_in_range;
