// The settings of a run.
ghost use Rattle.std.specs.Prelude.{◌≡◌, IfSome};
ghost use Rattle.audit_core.specs.declared.sinks.SinkMode.TheVariants.{Blocking, Strict};

use audit_core::{Settings, SinkMode};
use policy_rules::Policy;
use service_endpoints::read_endpoints;
use std::alloc::Global;
use token_users::read_tokens;

/// Every request at level Metadata, a strict log and a blocking webhook, and one endpoint.
pub fn settings_of(alloc: Global) -> Option<Settings>
    ensures { IfSome result (λ set. (set.max_event ≡ 102400) × (set.log ≡ Strict) × (set.hook ≡ Blocking)) }
{
    let tokens = read_tokens(alloc, b"".as_slice()).ok()?;
    let Ok(policy) = Policy::all_metadata(alloc) else {
        drop(tokens);
        return None;
    };
    let Ok(endpoints) = read_endpoints(alloc, b"local,127.0.0.1:9001\n".as_slice()) else {
        drop(tokens);
        drop(policy);
        return None;
    };
    Some(Settings {
        tokens,
        policy,
        endpoints,
        max_event: 102_400,
        log: SinkMode::Strict,
        hook: SinkMode::Blocking,
    })
}
