//! The run of `serve` over a plant, and what is said of it at its end.
//!
//! The top call is `serve_command::Serve::run`, which has the contract. Nothing is promised of standard error.
#![tactic(auto)]

mod running;

pub use running::{no_boot_word, run_over};
