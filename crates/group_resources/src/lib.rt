//! Resource lists of group versions (Kubernetes, `meta/v1`: APIResourceList), merged into one document: what servers of APIs answer now,
//! and where one answers nothing what an earlier document has of it.
//!
//! The main contracts are those of `read_list`, which gives the array that a reply lists exactly where it lists one; of `merged_line`, whose
//! line is fresh, stale or missing by `merged_of`; and of `read_merged`, which reads a document whose lines are spelled byte for byte as they
//! are written, or names the first line that isn't. The law `documents_are_read_back` says that a document that was written is read as its
//! lines, and never refused; `merged_lines_are_lines`, with `listed_arrays_are_arrays`, that what is merged may stand in one.
//!
//! Nothing is promised of what a resource is: arrays are kept as they are spelled, without white space.
#![tactic(auto)]

mod array;
mod choice;
mod laws;
mod line;
mod list;
mod merged;
mod reading;

pub use choice::merged_line;
pub use laws::{documents_are_read_back, listed_arrays_are_arrays, merged_lines_are_lines};
pub use line::{MergedLine, State};
pub use list::{MOST_LIST_BYTES, read_list};
pub use merged::{Merged, MergedFault, read_merged};
