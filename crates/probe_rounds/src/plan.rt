use front_base::{Address, Text};
use service_endpoints::Endpoints;

/// What a prober is told.
#[derive(Drop)]
pub struct ProbePlan {
    /// Where services are reached.
    pub endpoints: Endpoints,
    /// The front door that is told.
    pub front: Address,
    /// The bearer token of the user who tells it, if any.
    pub token: Option<Text>,
    /// How many rounds there are at most, from 1.
    pub rounds: u32,
    /// Seconds from the beginning of a round to that of the next one, 0 for none.
    pub every: u32,
    /// How many probes of a row one after another decide, from 1 to 10.
    pub threshold: u8,
}
