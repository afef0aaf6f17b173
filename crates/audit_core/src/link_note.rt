/// What became of the link to a backend.
#[derive(Clone, Copy, Debug, PartialEq, Eq)]
pub enum LinkNote {
    /// The request was not sent on.
    NotUsed,
    /// A whole reply came, with that status.
    Whole(u16),
    /// A reply came in pieces, with that status.
    Streamed(u16),
    /// The backend could not be dialed.
    DialFailed,
    /// What came is no reply that may be handed on.
    BadReply,
    /// The link ended before the reply did.
    Cut,
    /// The link failed.
    LinkFault,
}
