//! The plain types that all layers share: texts, users, request information, moments, audit IDs and audit lines; and how
//! a number, or a part, is read from a text.
//!
//! The main contracts are those of `audit_id_text` and `moment_text`, which give the text of every audit ID and of
//! every moment exactly. The types that hold text or bytes are seen by contracts as lists, so that a clause compares
//! them by `≡`.
//!
//! Nothing here is promised about what a text or a user means: the crates above read and write them.
#![tactic(auto)]

mod address;
mod audit_id;
mod cut;
mod ends;
mod file;
mod info;
mod level;
mod line;
mod memory;
mod moment;
mod number;
mod stage;
mod text;
mod user;
mod version;

pub use address::{Address, read_address};
pub use audit_id::{AuditId, MOST_REQUESTS, audit_id_text, push_audit_id};
pub use cut::cut_at;
pub use ends::{slashes_are_trimmed, trim_slashes, without_prefix};
pub use file::MOST_FILE_BYTES;
pub use info::Info;
pub use level::Level;
pub use line::{Line, MOST_LINE_BYTES};
pub use memory::NoMemory;
pub use moment::{MOMENT_END, Moment, moment_text, push_moment};
pub use number::number_of;
pub use stage::Stage;
pub use text::{Bytes, Text, Texts};
pub use user::User;
pub use version::{compare_versions, versions_are_ordered, versions_by_form, versions_by_number};
