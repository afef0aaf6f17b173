ghost use Rattle.std.specs.Prelude.{◌≤◌, length};
ghost use Rattle.front_base.specs.declared.file.TheConstants.{MOST_FILE_BYTES};

use audit_core::{Settings, SinkMode};
use case_rows::{bytes_of, read_cases};
use front_base::{Bytes, MOST_FILE_BYTES};
use http_edge::Request;
use http_head::{HeadAnswer, read_request};
use policy_json::read_policy;
use policy_rules::Policy;
use service_endpoints::Endpoints;
use std::alloc::Global;
use token_users::{Tokens, read_tokens};

/// The field of that number of a row, from 0.
pub fn field(row: &str, number: usize) -> &str {
    row.split(" | ").nth(number).unwrap_or("")
}

/// Bytes as they are printed, where they are UTF-8.
pub fn shown(bytes: &[u8]) -> &str {
    str::from_utf8(bytes).unwrap_or("not UTF-8")
}

/// The request whose head and whose body these fields spell.
pub fn request_of(alloc: Global, head: &str, body: &str) -> Option<Request> {
    match read_request(alloc, bytes_of(alloc, head).as_slice()) {
        Ok(HeadAnswer::Whole { head, .. }) => Some(Request {
            head,
            body: Bytes::new(bytes_of(alloc, body)),
        }),
        _ => None,
    }
}

// The bytes of a file that isn't too long.
fn file_bytes(text: &str) -> &[u8]
    ensures { length result.now ≤ MOST_FILE_BYTES }
{
    let bytes = text.as_bytes();
    if bytes.len() as u64 <= MOST_FILE_BYTES {
        bytes
    } else {
        b""
    }
}

fn tokens_of(rt: &HostRuntime) -> Option<Tokens> {
    let text = read_cases(rt, "tokens.csv").ok()?;
    read_tokens(rt.alloc(), file_bytes(text.as_str())).ok()
}

fn policy_of(rt: &HostRuntime, name: &str) -> Option<Policy> {
    let text = read_cases(rt, name).ok()?;
    read_policy(rt.alloc(), file_bytes(text.as_str())).ok()
}

/// The settings that the tokens and the policy of that file make, with no sink and no endpoint.
pub fn settings_of(rt: &HostRuntime, policy: &str) -> Option<Settings> {
    let tokens = tokens_of(rt)?;
    let Some(policy) = policy_of(rt, policy) else {
        drop(tokens);
        return None;
    };
    Some(Settings {
        tokens,
        policy,
        endpoints: Endpoints::none(rt.alloc()),
        max_event: 4_096,
        log: SinkMode::Off,
        hook: SinkMode::Off,
    })
}
