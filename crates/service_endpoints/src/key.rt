// The keys of endpoints: which texts are some, and which key a service has.
ghost use Rattle.std.specs.Prelude.{◌≡◌, ◌<◌, ◌≤◌, true, length, IfSome, IfNone};
ghost use Rattle.service_endpoints.specs.Key as spec;

use crate::names::{is_port, is_service_name};
use apiservice_rows::ServiceRef;
use arrayvec::ArrayString;
use front_base::cut_at;
use itoa::Buffer;

// The most bytes of a key: two names of 253, a port of five digits, a slash and a colon.
pub const MOST_KEY_BYTES: usize = 513;

// The key of the delegate, which answers for the rows that have no service.
pub const DELEGATE: &str = "local";

// The key of where paths go that nothing else serves.
pub const OTHERS: &str = "others";

fn is_name_and_port(text: &str) -> bool
    ensures { result ≡ spec.is_name_and_port text.now }
{
    match cut_at(text, ':') {
        Some((name, port)) => is_service_name(name) && is_port(port),
        None => false,
    }
}

// Whether a text is `namespace/name:port`.
#[tactic(auto, unfolding(crate::specs::Key::is_service_key))]
fn is_service_key(text: &str) -> bool
    ensures { result ≡ spec.is_service_key text.now }
{
    match cut_at(text, '/') {
        Some((namespace, rest)) => is_service_name(namespace) && is_name_and_port(rest),
        None => false,
    }
}

// Whether a text is a service's key, the delegate's, or that of the other paths.
pub fn is_key(text: &str) -> bool
    ensures value { result ≡ spec.is_key text.now }
    ensures short { result ≡ true → length text.now ≤ MOST_KEY_BYTES }
{
    text == DELEGATE || text == OTHERS || is_service_key(text)
}

// The key of a service, where it has room. The key of an endpoint always has.
pub fn service_key(service: &ServiceRef) -> Option<ArrayString<MOST_KEY_BYTES>>
    ensures some { IfSome result (λ key. key.bytes ≡ spec.service_key service.now) }
    ensures none { IfNone result (MOST_KEY_BYTES < length (spec.service_key service.now)) }
{
    let mut key = ArrayString::new();
    let mut digits = Buffer::new();
    key.try_push_str(service.namespace.as_str()).ok()?;
    key.try_push_str("/").ok()?;
    key.try_push_str(service.name.as_str()).ok()?;
    key.try_push_str(":").ok()?;
    key.try_push_str(digits.format(service.port)).ok()?;
    Some(key)
}
