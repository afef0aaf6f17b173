//! JSON texts as an audit event records them: without the managed fields of Kubernetes' objects, and with no escape of
//! half a surrogate pair.
//!
//! The main contract is that of `keep`: what it gives of a text is the tokens of a value, which is the text's own
//! without its managed fields, where these are omitted, and with each half of a pair mended. `without` drops the
//! members at any path. The laws say what such a text is: one JSON text, no deeper and no longer, in which managed
//! fields left no trace and no half of a pair is left.
//!
//! Nothing is promised of what names and numbers mean: a name is compared as it is spelled.
#![tactic(auto)]

mod copied;
mod halves;
mod kept;
mod laws;
mod mark;
mod mending;
mod names;
mod pruning;
mod skip;
#[cfg(test)]
mod tests;

pub use kept::{keep, without};
pub use laws::{
    kept_is_json, left_out_once, managed_fields_hide, mended_once, one_kept, pruned_is_json,
};
