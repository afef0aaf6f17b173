//! What a person is told of a run that was refused, in one line: which option, file, word or request, where in it, and why.
//!
//! The main contract is that of `refusal_text`: the line begins with the option, its file's name as it was given and the
//! place in the terms of the file's format; of an option out of its range, an address, a URL and what could not be read or
//! written it is the whole line; and a request is named by its number and its first byte. It is total, and fails only where
//! memory runs out. The line has no prefix: who prints it writes `apiaggd: ` before it.
//!
//! Nothing is promised of the words that say why, nor of the lines for words that are no command line: tests show each.
#![tactic(auto)]

mod addresses;
mod file_line;
mod json_place;
mod place;
mod reason;
mod refusal;
mod text;
mod token;
mod usage;

pub use json_place::{Position, json_stop, position_of};
pub use refusal::Refusal;
pub use text::refusal_text;
