use apiservice_table::Change;

/// One change of a history, and the bay that made it.
#[derive(Drop)]
pub struct Entry {
    /// The number of the bay, from 0.
    pub bay: u64,
    pub change: Change,
}
