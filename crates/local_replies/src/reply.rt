ghost use Rattle.std.specs.Prelude.{◌≡◌};
ghost use Rattle.local_replies.specs.Content.{media_type};

use front_base::Bytes;

/// What the body of a local reply is.
#[derive(Clone, Copy, Debug, PartialEq, Eq)]
pub enum Content {
    Json,
    Plain,
}

impl Content {
    /// The media type, as a Content-Type header tells it (RFC 9110, section 8.3).
    pub fn media_type(self) -> &'static str
        ensures { result.now ≡ media_type self }
    {
        match self {
            Content::Json => "application/json",
            Content::Plain => "text/plain",
        }
    }
}

/// A reply of this server's own.
#[derive(Debug, Drop)]
pub struct LocalReply {
    /// The status code (RFC 9110, section 15).
    pub status: u16,
    pub content: Content,
    pub body: Bytes,
}
