use front_base::Bytes;

/// What came of a call for a whole reply.
#[derive(Debug, Drop)]
pub enum Fetched {
    /// A reply that came to its end.
    Reply { status: u16, body: Bytes },
    /// The same, with a body of more than `stream_relay::MOST_KEPT_BYTES` bytes, which isn't kept.
    TooLong { status: u16 },
    /// No whole reply came: no head of HTTP/1 that is taken, or an end before the reply's.
    NoReply,
    /// No link was opened.
    NotDialed,
    /// A read or a write of the link failed before the head of the reply had come, or within a body of a known size.
    LinkFault,
}
