use crate::listing::ListFault;
use command_ends::Status;
use refusal_text::Refusal;

/// How a run of `probe` ended.
#[derive(Debug, Drop)]
pub struct ProbeEnded {
    pub status: Status,
    /// What was refused, where there is more to tell than the status.
    pub why: Option<Refusal>,
    /// Why the front door gave no list of APIServices, where the status is `NothingListed`.
    pub unlisted: Option<ListFault>,
}
