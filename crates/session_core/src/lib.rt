//! One connection: each of its requests is judged, handled, answered and recorded, one after another.
//!
//! The main contract is that of `serve_connection`. `specs/Exchange.antt` says what one request does: to the routes, to the
//! backend, to the lanes of the sinks, to the clock and to the diary, and which bytes its client gets. `specs/Connection.antt` says
//! that a connection does that for each request of its input in order, and why it ends. Which request an input has is the
//! definition of `http_edge`; how a request is handled and what it owes are those of `audit_core`.
//!
//! A reply that is handed on as it comes may be cut by its backend, and the connection ends then. Nothing is promised of time.
#![tactic(auto)]

mod bay;
mod begun;
mod conn_end;
mod diary;
mod exchange;
mod handling;
mod replying;
mod serving;
mod session;
mod work;

pub use bay::Bay;
pub use conn_end::ConnEnd;
pub use diary::{Diary, MemDiary, NoDiary};
pub use exchange::Exchange;
pub use serving::serve_connection;
