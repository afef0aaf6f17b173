//! What programs of stored cases share: the rows of a file of cases, and bytes as they are spelled there.
//!
//! A row is a line that is neither empty nor a comment, which begins with `#`. Its fields stand between ` | `. Bytes other
//! than those of printed ASCII are spelled `\r`, `\n`, `\t` and `\xHH`, and a backslash is `\\`.
//!
//! Nothing is promised of a text that memory refuses: it comes out empty, and so the output of its case is a wrong one.
#![tactic(auto)]

mod escapes;
mod rows;

pub use escapes::{bytes_of, spelled};
pub use rows::{fields, is_comment, is_row, read_cases};
