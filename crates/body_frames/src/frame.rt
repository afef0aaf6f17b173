/// How a body is framed (RFC 9112, section 6.3).
#[derive(Clone, Copy, Debug, PartialEq, Eq)]
pub enum Frame {
    /// There is none.
    NoBody,
    /// It has that many bytes.
    Length(u64),
    /// It comes in chunks.
    Chunked,
    /// It ends where the connection does.
    Close,
}

/// Why a body is refused.
#[derive(Clone, Copy, Debug, PartialEq, Eq)]
pub enum BodyFault {
    /// A byte came that no chunked body has there. So many bytes came before it, at most 2^64 - 1.
    BadChunk { at: u64 },
    /// The body has more bytes than its limit.
    TooLarge,
}
