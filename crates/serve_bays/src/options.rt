use batch_backend::Limits;
use front_base::{Address, Text};

/// What the words of a command line say of a run.
#[derive(Debug, Drop)]
pub struct RunOptions {
    /// Where to listen.
    pub listen: Address,
    /// How many bays serve, 1 to 1024.
    pub bays: u16,
    /// How many connections the door of each bay gives, 0 for no end.
    pub connections: u64,
    /// The file of the log, and the URL of the webhook. One whose sink is off isn't read.
    pub log_path: Text,
    pub hook_url: Text,
    /// How many lines the queue of a sink in batch mode holds, at least 1 (`--audit-webhook-batch-buffer-size` of kube-apiserver).
    pub buffer: u32,
    /// When a batch is put.
    pub limits: Limits,
}
