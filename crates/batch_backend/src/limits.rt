/// When a batch is put.
#[derive(Clone, Copy, Debug, PartialEq, Eq)]
pub struct Limits {
    /// The most lines of a batch, at least 1 (`--audit-webhook-batch-max-size` of kube-apiserver).
    pub lines: u32,
    /// The most bytes of the lines of a batch that has more than one.
    pub bytes: u64,
    /// How long its first line waits, in microseconds (`--audit-webhook-batch-max-wait`).
    pub wait: u64,
}
