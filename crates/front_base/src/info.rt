ghost use Rattle.std.specs.Prelude.{◌≡◌, codes, nat_eq};
ghost use Rattle.std.specs.List.{starts_with};
ghost use Rattle.front_base.specs.Info.{is_long_running, is_stream};

use crate::text::Text;

/// What a request asks for, as Kubernetes' `RequestInfo` has it. A text that a request doesn't have is empty.
#[derive(Debug, Drop)]
pub struct Info {
    /// Whether the path names a resource of an API, as `/api/v1/pods` does and `/healthz` doesn't.
    pub resource_request: bool,
    pub path: Text,
    pub verb: Text,
    pub group: Text,
    pub version: Text,
    pub namespace: Text,
    pub resource: Text,
    pub subresource: Text,
    pub name: Text,
}

fn is_stream(subresource: &str) -> bool
    ensures { result ≡ is_stream subresource.now }
{
    matches!(
        subresource,
        "attach" | "exec" | "proxy" | "log" | "portforward"
    )
}

fn is_profile(path: &str) -> bool
    ensures { result ≡ starts_with nat_eq path.now (codes "/debug/pprof/") }
{
    path.as_bytes().starts_with(b"/debug/pprof/".as_slice())
}

impl Info {
    /// Whether the request may run for long, so that its audit events have the stage `ResponseStarted`.
    #[tactic(auto, unfolding(crate::specs::Info::is_long_running))]
    pub fn is_long_running(&self) -> bool
        ensures { result ≡ is_long_running self.now }
    {
        if self.resource_request {
            let verb = self.verb.as_str();
            verb == "watch" || verb == "proxy" || is_stream(self.subresource.as_str())
        } else {
            is_profile(self.path.as_str())
        }
    }
}
