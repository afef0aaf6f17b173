//! The audit log: each line and a line feed, written to one sink of bytes.
//!
//! The main contract is that of `LogSink::put`: it writes the text of its lines, or a prefix of that text where a write
//! fails, and notes how many bytes went out. What a log wrote in all is thus what its notes say, try after try. The text
//! goes through a buffer that is reserved at the start, so that a try is one write where its text fits there.
//!
//! Nothing is promised of when the bytes reach a disk. A line that was cut by a fault stays cut: the next try writes after
//! it.
#![tactic(auto)]

mod buffer;
mod laws;
mod log;

pub use buffer::MOST_BUFFERED_BYTES;
pub use laws::log_texts_join;
pub use log::LogSink;
