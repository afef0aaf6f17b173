use crate::previous::PreviousRefusal;
use command_ends::Status;
use refusal_text::Refusal;

/// How `resources` ended.
#[derive(Debug, Drop)]
pub struct ResourcesEnded {
    pub status: Status,
    /// What was refused, where there is more to tell than the status.
    pub why: Option<Refusal>,
    /// The earlier document that was refused, and why.
    pub previous: Option<PreviousRefusal>,
}
