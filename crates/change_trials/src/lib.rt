//! What a change of the table of APIs would be answered, without making it.
//!
//! The main contract is that of `try_change`: over rows that are lent it gives the object that the change would leave, or why the
//! rows don't take it, in the words of the change itself.
//!
//! Nothing is promised of a table that changes meanwhile: the rows are those of one moment.
#![tactic(auto)]

mod trial;

pub use trial::try_change;
