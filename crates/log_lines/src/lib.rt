//! The lines of an input, each ended by a line feed, whatever the sizes of its reads.
//!
//! The main contract is that of `next_line`: the line that it finds stands first in the bytes that were held and read. Where it finds
//! none, those bytes say why. `specs/Lines.antt` says what the lines of a text are, and the law `one_list_of_lines` that it has no two
//! lists of them.
//!
//! Nothing is promised of how much of an input is read ahead, but that at most `MOST_HELD_BYTES` bytes are held.
#![tactic(auto)]

mod buffer;
mod laws;
mod next;

pub use buffer::{LineBuffer, MOST_HELD_BYTES, MOST_READ_BYTES, ReadStop};
pub use laws::one_list_of_lines;
pub use next::{LineStop, next_line};
