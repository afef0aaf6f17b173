use front_base::AuditId;

/// What this server says of itself in the head of each reply to a request.
#[derive(Clone, Copy, Debug, PartialEq, Eq)]
pub struct ReplyTag {
    /// The audit ID of the request.
    pub id: AuditId,
    /// Whether the connection ends after the reply (RFC 9112, section 9.6).
    pub closing: bool,
}
