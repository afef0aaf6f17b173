use crate::routed::Handling;
use policy_rules::Decision;
use stage_event::Facts;

/// A request that was answered: how it was handled and is recorded, and what is known of it.
#[derive(Debug, Drop)]
pub struct Answered {
    pub handling: Handling,
    pub decision: Decision,
    pub facts: Facts,
}
