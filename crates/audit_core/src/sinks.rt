ghost use Rattle.std.specs.Prelude.{◌≡◌};
ghost use Rattle.audit_core.specs.Offers as spec;

/// How events go to a sink (`--audit-log-mode` and `--audit-webhook-mode` of kube-apiserver).
#[derive(Clone, Copy, Debug, PartialEq, Eq)]
pub enum SinkMode {
    /// They don't.
    Off,
    /// They wait in a buffer, and are written in batches.
    Batch,
    /// Each is written at once, and the request waits for it.
    Blocking,
    /// Each is written at once, and a request whose first event isn't written is refused.
    Strict,
}

impl SinkMode {
    /// Whether events go to the sink at all.
    pub fn is_on(self) -> bool
        ensures { result ≡ spec.is_on self }
    {
        match self {
            SinkMode::Off => false,
            SinkMode::Batch | SinkMode::Blocking | SinkMode::Strict => true,
        }
    }

    /// Whether a request is refused whose arrival the sink can't record.
    pub fn is_strict(self) -> bool
        ensures { result ≡ spec.is_strict self }
    {
        match self {
            SinkMode::Strict => true,
            SinkMode::Off | SinkMode::Batch | SinkMode::Blocking => false,
        }
    }
}

/// Where events go.
#[derive(Clone, Copy, Debug, PartialEq, Eq)]
pub enum Sink {
    Log,
    Webhook,
}
