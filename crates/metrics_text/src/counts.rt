// What is counted of a run.

/// Requests that were answered, by the class of their code.
#[derive(Clone, Copy, Debug, PartialEq, Eq)]
pub struct Answers {
    pub informational: u64,
    pub successful: u64,
    pub redirected: u64,
    pub client_errors: u64,
    pub server_errors: u64,
}

/// Connections of clients and to backends.
#[derive(Clone, Copy, Debug, PartialEq, Eq)]
pub struct Connections {
    pub accepted: u64,
    /// Those that ended after their last reply or by their client between two requests, and since they were idle.
    pub well: u64,
    pub idle: u64,
    /// Those whose client sent too late or took bytes too slowly, or that were cut at the end of the run.
    pub late: u64,
    pub slow: u64,
    /// Those whose socket broke.
    pub gone: u64,
    /// How many can be served at once, and how many are.
    pub bays: u64,
    pub open: u64,
    pub dials: u64,
    pub dials_failed: u64,
    /// Those of either kind that failed for want of descriptors.
    pub no_files: u64,
}

/// What became of the lines of a sink.
#[derive(Clone, Copy, Debug, PartialEq, Eq)]
pub struct SinkLines {
    pub offered: u64,
    pub written: u64,
    /// Lines that a blocking sink could not write.
    pub failed: u64,
    /// Lines of batches that could not be written.
    pub lost: u64,
    pub not_taken: u64,
    pub too_large: u64,
    /// When the last line was written, in seconds since 1970, 0 before the first.
    pub last_written: u64,
}

/// What is counted of a run.
#[derive(Clone, Copy, Debug, PartialEq, Eq)]
pub struct RunCounts {
    pub answers: Answers,
    /// Audit events of requests that were answered.
    pub events: u64,
    pub connections: Connections,
    pub log: SinkLines,
    pub webhook: SinkLines,
}
