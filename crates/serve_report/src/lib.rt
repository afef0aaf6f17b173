//! What `serve` tells an operator on standard error: what it begins with, which requests a strict sink doesn't stop, whether events
//! can be too large and files too many, and what became of connections and audit lines. And what its metrics are made of.
//!
//! Nothing is promised of these texts. The counts of connections, of lines offered, and those of a sink in mode batch are those of the
//! run; those of a blocking sink are its handles' own.
#![tactic(auto)]

mod begun;
mod counts;
mod ended;
mod ends;
mod files;
mod sizes;
mod strict;

pub use begun::begun_text;
pub use counts::{RunShape, run_counts};
pub use ended::{ended_text, short_text};
pub use ends::ends_text;
pub use files::{files_warning, most_open_files};
pub use sizes::size_warning;
pub use strict::strict_warnings;
