//! The command `resources`: the servers of all APIs asked for their resource lists, merged into one document.
//!
//! The main contract is that of `run_resources`. With the statuses 0 and 12 the document of all group versions was written, in the order of
//! discovery: each line fresh, stale or missing by what its server's link said and by the earlier document; and the dial was called once for
//! each row that is available and has an address, in that order, with the stated bytes. It is 0 exactly where a line is fresh, and 12 exactly
//! where none is. Each line that isn't fresh is noted, with the reason. With any other status it says why, and what was written is a prefix.
//! A line that says `fresh` has the array that was fetched in this run.
//!
//! Nothing is promised of what a real file, dial or standard output holds, nor of how long a server takes.
#![tactic(auto)]

mod config;
mod earlier;
mod ended;
mod group_versions;
mod notes;
mod previous;
mod run;
mod settings;
mod unlisted;
mod words;

pub use config::configure_resources;
pub use earlier::EarlierFiles;
pub use ended::ResourcesEnded;
pub use group_versions::{GroupVersion, order};
pub use notes::Notes;
pub use previous::{PreviousFault, PreviousRefusal, previous_text};
pub use run::run_resources;
pub use settings::Settings;
pub use unlisted::unlisted_text;
pub use words::{ResourcesWords, read_resources};
