//! What a log says of the requests that it tells of, counted as it is checked: at which levels they were recorded, what they asked
//! for, how they were answered, and who asked most.
//!
//! `Watch` is what a checker of a log shows the events that it accepts; `NoWatch` looks at none of them, and `Summary` counts them. A
//! summary is for people: no contract says what its text holds, tests do. Its memory has a bound: it has room for `MOST_NAMES` users, as
//! many verbs and as many resources, each of at most `MOST_NAME_BYTES` bytes, and counts the requests of what comes beyond together.
#![tactic(auto)]

mod counts;
mod summary;
mod table;
mod watch;

pub use counts::{Counts, MOST_NAME_BYTES, MOST_NAMES, MOST_ROWS};
pub use summary::Summary;
pub use watch::{NoWatch, Watch};
