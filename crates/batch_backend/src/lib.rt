//! Lines gathered into batches, and each batch put once into a sink.
//!
//! The main contract is that of `Drainer::pump`: with at most one pop and one put it does exactly what the four rules of
//! `PumpedAs` say, and what was taken from the outlet stays what the sink's tries have, followed by what still waits. Each
//! batch has at most so many lines, and at most so many bytes where it has more than one. `Drainer::flush_all` pumps until
//! the outlet is empty and puts the rest, so that nothing waits afterwards.
//!
//! A batch is tried once: lines of a try that fails are counted as lost, and are not put again. After the start no call
//! takes memory. Nothing is promised of when a pump is made.
#![tactic(auto)]

mod drainer;
mod limits;
mod pumped;

pub use drainer::Drainer;
pub use limits::Limits;
pub use pumped::Pumped;
