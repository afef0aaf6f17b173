use front_base::{AuditId, Bytes, Level, Moment, Stage, Text, User};

/// The object that a request names (`ObjectReference` of `audit.k8s.io/v1`). What the request doesn't name is empty.
#[derive(Debug, Drop)]
pub struct ObjectRef {
    pub resource: Text,
    pub namespace: Text,
    pub name: Text,
    pub group: Text,
    pub version: Text,
    pub subresource: Text,
}

/// An audit event (`Event` of `audit.k8s.io/v1`), its members in the order in which a line has them.
#[derive(Debug, Drop)]
pub struct Event {
    pub level: Level,
    pub id: AuditId,
    pub stage: Stage,
    /// The request's target as it came (`requestURI`).
    pub target: Text,
    pub verb: Text,
    pub user: User,
    /// The user that the request acts as, where it acts as another.
    pub impersonated: Option<User>,
    /// The IPv4 address of the other end of the connection.
    pub peer: [u8; 4],
    /// The first `User-Agent` header, or nothing.
    pub agent: Text,
    pub object_ref: Option<ObjectRef>,
    /// The status code of the reply, once it is known.
    pub code: Option<u16>,
    /// The request's body, which is compact JSON.
    pub request_object: Option<Bytes>,
    /// The reply's body, which is compact JSON.
    pub response_object: Option<Bytes>,
    /// When the request had been read.
    pub received: Moment,
    /// When the stage was reached (`stageTimestamp`).
    pub at: Moment,
    /// Whether the objects were taken out of the event because it was too long.
    pub truncated: bool,
}
