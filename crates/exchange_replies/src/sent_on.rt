ghost use Rattle.std.specs.Prelude.{◌≡◌};
ghost use Rattle.exchange_replies.specs.Streams as spec;

use crate::reached::Reached;
use audit_core::LinkNote;
use body_frames::Frame;
use front_base::Bytes;
use http_head::ReplyHead;

/// What came of sending a request on.
#[derive(Debug)]
pub enum SentOn<K> {
    /// No link is open.
    Once(Reached),
    /// The head of a reply whose body in that frame is handed on as it comes: first `rest`, and then what the link gives.
    Open {
        head: ReplyHead,
        frame: Frame,
        rest: Bytes,
        link: K,
    },
}

impl<K> SentOn<K> {
    /// How its link is noted.
    pub fn note(&self) -> LinkNote
        ensures { result ≡ spec.note_of_sent self.now }
    {
        match self {
            SentOn::Once(reached) => reached.note(),
            SentOn::Open { head, .. } => LinkNote::Streamed(head.status),
        }
    }
}
