//! The outside as traits with a written meaning: where bytes come from, where they go, connections and doors that give
//! them, links and dials that open them, clocks, files, and forms of all these in memory.
//!
//! An object of the outside may tell what it has left to give, what it gave, what was written to it, what it holds and what it
//! will wish; a file, a socket or a terminal tells nothing. Where it tells, each call says exactly what it changes. The object's own
//! count of faults rises in a call that fails and in no other, so that nobody above can give up without a fault or hide
//! one. The forms in memory fail exactly where they were told to when they were made, and their reads give as many bytes
//! as they may. They take memory only when they are made, but for `Files::read`, which hands out a copy.
//!
//! Nothing is promised of what a real file, socket or terminal holds, nor of how long a clock's rest is.
#![tactic(auto)]

mod clock;
mod dial;
mod door;
mod files;
mod mem_bytes;
mod mem_clock;
mod mem_conn;
mod mem_dial;
mod mem_door;
mod mem_duplex;
mod mem_files;
mod mem_link;
mod mem_stream;
mod script;
mod stream;

pub use clock::Clock;
pub use dial::{Call, Dial};
pub use door::{Door, Visit};
pub use files::{FileFail, Files};
pub use mem_bytes::MemBytes;
pub use mem_clock::MemClock;
pub use mem_conn::MemConn;
pub use mem_dial::MemDial;
pub use mem_door::MemDoor;
pub use mem_duplex::{Mark, MemDuplex, MemVisitor};
pub use mem_files::MemFiles;
pub use mem_link::MemLink;
pub use script::Script;
pub use stream::{ByteSink, Conn, Link, PortFault, Source, write_all, write_counted};
