//! Tests of routes that bays share, by public calls alone: what one bay sees of another's changes is promised by no contract.
#![tactic(auto)]

#[cfg(test)]
mod tests;
