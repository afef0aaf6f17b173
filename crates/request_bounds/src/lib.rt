//! How long the lines of a request's events can be, and how large `--max-event-size` has to be so that none is too long.
//!
//! `heads_bound_lines` says that the line of an event without its objects has at most `PER_HEAD_BYTE` bytes for each of the
//! request's head, `PER_USER_BYTE` for each of the user that authenticated, and `OTHER_BYTES` more. `line_limit` gives that
//! number for the longest head and the longest user of a token file: where lines may have as many bytes, no event is left out
//! for its length (`no_event_is_too_large`). The default is enough where no user has more than `USUAL_USER_BYTES`.
//!
//! Nothing is promised of objects: an event that fits only without them is written without them.
#![tactic(auto)]

mod laws;
mod limit;

pub use laws::{heads_bound_lines, no_event_is_too_large, stamps_are_in_range};
pub use limit::{line_limit, user_length};

/// The most bytes of a line that a byte of a request's head makes: a quotation mark in the name of a namespace stands in the
/// target, in the namespace and in the name, each time after a backslash.
pub const PER_HEAD_BYTE: u64 = 6;

/// The most bytes of a line that a byte of a user makes: a control character in the uid is written by its number.
pub const PER_USER_BYTE: u64 = 6;

/// The default of `--max-event-size`.
pub const DEFAULT_MAX_EVENT: u64 = 1_048_576;

/// How many bytes each user of a token file may have so that the default of `--max-event-size` is enough, as `user_length`
/// counts them.
pub const USUAL_USER_BYTES: u64 = 102_400;
