use apiservice_rows::Row;
use apiservice_table::Change;
use forward_link::Target;
use local_replies::{Local, LocalReply};

/// How a request is handled.
#[derive(Debug, Drop)]
pub enum Handling {
    /// It is refused with that code.
    Refused(u16),
    /// This server answered it itself.
    Served {
        local: Local,
        reply: LocalReply,
        /// The change of the table that was made, if one was.
        change: Option<Change>,
    },
    /// It is to be sent on.
    Proxied(Target),
}

/// What the table says of a request.
#[derive(Debug, Drop)]
pub struct Routed {
    /// The row that decides on it, where it is for an API.
    pub row: Option<Row>,
    pub handling: Handling,
}
