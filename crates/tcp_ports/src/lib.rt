//! The ports of a server over TCP: one listening socket that all bays share, and each bay's door, connections, dial and
//! links.
//!
//! These objects are opaque: they tell none of their bytes. Their contracts are those of the traits of `front_ports`. A call
//! fails only where its object's count of faults rises in it, a door counts each answer that no connection comes any more,
//! and it gives no more connections than it was made for.
//!
//! Nothing is promised of time, nor of what a network does. By code and tests alone, no peer holds a bay for nothing: a
//! connection that is idle makes room for one that waits, and one that is late with a head, moves a body too slowly, takes
//! no bytes or has gone ends by a fault (`TcpLimits`). Each wait lasts one `wake_interval` at most before the bay looks
//! again, so that no wake-up that is lost can hold one. A client that expects `100 Continue` gets it once the door waits for
//! its body.
//!
//! A listener that is bound has its address, and the system refuses clients there until it is opened. Each door that waits is
//! counted, so that a server can open it when all of its bays run.
//!
//! Listeners of several processes may share a port, where each is bound so. One that is closed then resets no connection: what it
//! was sent before is given to its doors, and later clients are sent to the others. `SharedListener::close` says how.
#![tactic(auto)]

mod accept;
mod bound;
mod clock;
mod conn;
mod descriptors;
mod dial;
mod dial_fault;
mod door;
mod expect;
mod head_end;
mod head_line;
mod head_notes;
mod held_conns;
mod idle;
mod keep_alive;
mod limits;
mod linger;
mod link;
mod listener;
mod open;
mod pace;
mod poll;
mod port_counts;
mod rate;
mod reply_scan;
mod request_scan;
mod send;
mod served_client;

pub use conn::TcpConn;
pub use descriptors::most_descriptors;
pub use dial::TcpDial;
pub use dial_fault::DialFault;
pub use door::TcpDoor;
pub use limits::{DEFAULT_LIMITS, TcpLimits};
pub use link::TcpLink;
pub use listener::SharedListener;
pub use port_counts::PortCounts;
pub use served_client::ServedClient;
