// The settings and the table of a run.
ghost use Rattle.std.specs.Prelude.{◌≡◌, ◌≤◌, IfSome, length};
ghost use Rattle.audit_core.specs.declared.sinks.SinkMode.TheVariants.{Off};
ghost use Rattle.front_base.specs.declared.file.TheConstants.{MOST_FILE_BYTES};

use apiservice_rows::read_rows;
use apiservice_table::{RouteTable, TableRoutes, read_rows_fit};
use audit_core::{Settings, SinkMode};
use front_base::MOST_FILE_BYTES;
use policy_json::read_policy;
use service_endpoints::read_endpoints;
use std::alloc::Global;
use token_users::read_tokens;

// The bytes of a file that isn't too long.
fn file_bytes(text: &str) -> Option<&[u8]>
    ensures { IfSome result (λ bytes. length bytes.now ≤ MOST_FILE_BYTES) }
{
    let bytes = text.as_bytes();
    if bytes.len() as u64 <= MOST_FILE_BYTES {
        Some(bytes)
    } else {
        None
    }
}

/// The settings that these files state, with such a log and no webhook.
pub fn settings_of(
    alloc: Global,
    tokens: &str,
    policy: &str,
    endpoints: &str,
    log: SinkMode,
) -> Option<Settings>
    ensures { IfSome result (λ set. (set.max_event ≡ 102400) × (set.log ≡ log) × (set.hook ≡ Off)) }
{
    let tokens = file_bytes(tokens)?;
    let policy = file_bytes(policy)?;
    let endpoints = file_bytes(endpoints)?;
    let tokens = read_tokens(alloc, tokens).ok()?;
    let Ok(policy) = read_policy(alloc, policy) else {
        drop(tokens);
        return None;
    };
    let Ok(endpoints) = read_endpoints(alloc, endpoints) else {
        drop(tokens);
        drop(policy);
        return None;
    };
    Some(Settings {
        tokens,
        policy,
        endpoints,
        max_event: 102_400,
        log,
        hook: SinkMode::Off,
    })
}

/// The table of these APIServices.
pub fn routes_of(alloc: Global, services: &str) -> Option<TableRoutes> {
    read_rows_fit();
    let rows = read_rows(alloc, services.as_bytes()).ok()?;
    TableRoutes::new(alloc, RouteTable::from_rows(alloc, rows).ok()?).ok()
}
