ghost use Rattle.std.specs.Prelude.{◌≡◌};
ghost use Rattle.audit_core.specs.Offers as spec;

use crate::sinks::{Sink, SinkMode};
use policy_rules::Policy;
use service_endpoints::Endpoints;
use token_users::Tokens;

/// By what requests are judged and recorded.
#[derive(Drop)]
pub struct Settings {
    /// The bearer tokens that are known.
    pub tokens: Tokens,
    /// How requests are recorded.
    pub policy: Policy,
    /// Where backends are reached.
    pub endpoints: Endpoints,
    /// How many bytes the line of an event may have (`--audit-log-truncate-max-event-size` of kube-apiserver).
    pub max_event: u64,
    /// How events go to the log.
    pub log: SinkMode,
    /// How events go to the webhook.
    pub hook: SinkMode,
}

impl Settings {
    /// How events go to that sink.
    pub fn mode_of(&self, sink: Sink) -> SinkMode
        ensures { result ≡ spec.mode_of self.now sink }
    {
        match sink {
            Sink::Log => self.log,
            Sink::Webhook => self.hook,
        }
    }
}
