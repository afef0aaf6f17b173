//! The handles of a run over the system: sockets, files, standard output and the system's clock.
//!
//! The contracts are those of `Plant`, whose calls fail for their port only where the count of faults rises, and those of
//! the ports. These handles are opaque: the plant tells neither its calls nor what is due, and its sinks tell no tries.
//!
//! Nothing is promised of what a file, a socket or a terminal holds, nor that the word of `boot` is another one in each run:
//! that is the system's chance.
#![tactic(auto)]

mod clock;
mod gate;
mod log_file;
mod log_target;
mod notice;
mod open_log;
mod plant;
mod request_counts;
mod sink_diary;
mod sink_notes;
mod sink_share;
mod unreached;
mod whole_lines;

pub use clock::SystemClock;
pub use gate::TcpGate;
pub use log_file::LogFile;
pub use notice::{Losses, NOTICE_INTERVAL, Notice, Notices, Why};
pub use plant::TcpPlant;
pub use request_counts::{AnsweredCounts, RequestCounts};
pub use sink_diary::SinkDiary;
pub use sink_notes::SinkNotes;
pub use sink_share::{SinkCounts, SinkShare};
