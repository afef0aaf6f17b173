ghost use Rattle.std.specs.Prelude.{◌≡◌};
ghost use Rattle.exchange_replies.specs.Sent as spec;

use audit_core::LinkNote;
use front_base::Bytes;
use http_head::ReplyHead;

/// What came of a request's link, where no reply streams.
#[derive(Debug, Drop)]
pub enum Reached {
    /// The request was not to be sent on.
    NotUsed,
    /// A whole reply came.
    Whole { head: ReplyHead, body: Bytes },
    /// The backend could not be dialed.
    DialFailed,
    /// What came is no reply that may be handed on.
    BadReply,
    /// The link ended before the reply did.
    Cut,
    /// The link failed.
    LinkFault,
}

impl Reached {
    /// How it is noted.
    pub fn note(&self) -> LinkNote
        ensures { result ≡ spec.note_of self.now }
    {
        match self {
            Reached::NotUsed => LinkNote::NotUsed,
            Reached::Whole { head, .. } => LinkNote::Whole(head.status),
            Reached::DialFailed => LinkNote::DialFailed,
            Reached::BadReply => LinkNote::BadReply,
            Reached::Cut => LinkNote::Cut,
            Reached::LinkFault => LinkNote::LinkFault,
        }
    }

    /// The body of the reply, and nothing where none came.
    pub fn body(&self) -> &[u8]
        ensures { result.now ≡ spec.body_of self.now }
    {
        match self {
            Reached::Whole { body, .. } => body.as_slice(),
            _ => b"".as_slice(),
        }
    }
}
