ghost use Rattle.std.specs.Prelude.{◌≡◌};
ghost use Rattle.stage_event.specs.Begun.{begun};
ghost use Rattle.stage_event.specs.Views.{effective_user};

use front_base::{AuditId, Bytes, Info, Moment, Text, User};

/// What is kept of a body, for events to show.
#[derive(Debug, Drop)]
pub enum Kept {
    /// No event shows the body, and nobody looked at it.
    NotAsked,
    /// It is one JSON text, and these are its tokens joined.
    Compact(Bytes),
    /// It is no JSON text.
    NotJson,
    /// It has more than `MOST_KEPT_BYTES` bytes.
    Over,
    /// It came in pieces, and its end never came.
    CutOff,
}

/// What is known of a request and its reply. `Facts::begin` makes them when the request was received; the fields that
/// are known later are then set one after another. No event of a stage depends on what is known only after it
/// (`stages_hide`).
#[derive(Debug, Drop)]
pub struct Facts {
    pub id: AuditId,
    /// The request's target as it came.
    pub target: Text,
    pub info: Info,
    /// The user that authenticated.
    pub user: User,
    /// The user that the request acts as, where it acts as another.
    pub acting: Option<User>,
    /// The IPv4 address of the other end of the connection.
    pub peer: [u8; 4],
    /// The first `User-Agent` header, or nothing.
    pub agent: Text,
    /// The reply's status code, which is known when the reply starts.
    pub status: u16,
    /// The request's body, which is known when the reply starts.
    pub request: Kept,
    /// The reply's body, which is known when the reply is complete.
    pub reply: Kept,
    pub received: Moment,
    /// When a long-running request's reply head was known. It says nothing of other requests.
    pub started: Moment,
    pub complete: Moment,
}

impl Facts {
    /// The facts of a request that was received. Of the reply nothing is known: until they are set, its status is 0, no
    /// body was asked for, and the later moments are that of the request.
    pub fn begin(
        id: AuditId,
        target: Text,
        info: Info,
        user: User,
        acting: Option<User>,
        peer: [u8; 4],
        agent: Text,
        received: Moment,
    ) -> Facts
        ensures { result ≡ begun id target info user acting peer agent received }
    {
        Facts {
            id,
            target,
            info,
            user,
            acting,
            peer,
            agent,
            status: 0,
            request: Kept::NotAsked,
            reply: Kept::NotAsked,
            received,
            started: received,
            complete: received,
        }
    }

    /// The user as whom the request is served: the one that it acts as, else the one that authenticated.
    pub fn effective_user(&self) -> &User
        ensures { result.now ≡ effective_user self.now }
    {
        match &self.acting {
            Some(user) => user,
            None => &self.user,
        }
    }
}
