//! The history of a table that bays share, the copies of the table that look-ups read, and what one table answers.
//!
//! A history is a list of entries that only grows, each a change with the number of the bay that made it. It exists in proofs
//! alone: a run holds its length, and each of those who know it the length of a prefix. The main contracts are those of `HistoryPrefix`, of which two of one name are prefixes of
//! one list; of `RouteCopy`, whose rows are the opening ones after the changes of its prefix; and of `NewRoutes`, which begins
//! a history of its own over a table.
//!
//! Nothing is promised of when a change is made, or that one is.
#![tactic(auto)]

pub mod answers;
mod copy;
mod entry;
mod history;
mod open;
mod prefix;
mod rule;

pub use copy::{NextChange, RouteCopy, TableCopy};
pub use entry::Entry;
pub use history::{HistoryHead, HistoryPrefix, RouteName, SeenHistory};
pub use open::{NamedRoutes, NewRoutes};
pub use prefix::Prefix;
