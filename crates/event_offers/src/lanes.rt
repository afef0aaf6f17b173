/// The lanes of one bay, and how many lines it offered to each.
#[derive(Drop)]
pub struct Lanes<A, B> {
    /// The number of the bay.
    pub bay: u16,
    /// Where its lines for the log go.
    pub log: A,
    /// Where its lines for the webhook go.
    pub hook: B,
    /// How many lines it offered to the log's lane.
    pub log_lines: u64,
    /// How many lines it offered to the webhook's lane.
    pub hook_lines: u64,
}
