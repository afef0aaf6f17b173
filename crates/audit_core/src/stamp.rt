use front_base::{AuditId, Moment};

/// What a request doesn't tell itself, and its events show.
#[derive(Clone, Copy, Debug)]
pub struct Stamp {
    pub id: AuditId,
    /// The IPv4 address of the other end of the connection.
    pub peer: [u8; 4],
    /// When the request had been read.
    pub received: Moment,
    /// When the reply's head was known. Events of requests that don't run long don't show it.
    pub started: Moment,
    /// When the reply was complete.
    pub complete: Moment,
}
