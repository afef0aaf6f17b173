use apiservice_rows::Row;
use audit_core::{Handling, LinkNote, Offers};
use http_edge::Request;
use policy_rules::Decision;
use stage_event::Facts;

/// One request that was answered. One that memory stopped is told as far as it came: until it was handled its handling is
/// the refusal with code 500, and until it was sent on its link was not used.
#[derive(Debug, Drop)]
pub struct Exchange {
    pub request: Request,
    /// The row that decided on it, where it was for an API.
    pub row: Option<Row>,
    pub handling: Handling,
    /// How it is recorded.
    pub decision: Decision,
    pub facts: Facts,
    /// What became of its link.
    pub link: LinkNote,
    /// What became of its events.
    pub offers: Offers,
    /// Whether the connection wished to end after its reply. It is asked before the reply's head, and wishes nothing before.
    pub wished: bool,
}
