// The names and the port in a service's key.
ghost use Rattle.std.specs.Prelude.{◌≡◌};
ghost use Rattle.apiservice_rows.specs.Object as object;
ghost use Rattle.front_base.specs.Number as number;
ghost use Rattle.service_endpoints.specs.Key as spec;

use front_base::number_of;

fn is_name_byte(byte: u8) -> bool
    ensures { result ≡ object.is_name_byte byte }
{
    byte.is_ascii_lowercase() || byte.is_ascii_digit() || byte == b'-' || byte == b'.'
}

fn are_name_bytes(text: &[u8]) -> bool
    ensures { result ≡ object.are_name_bytes text.now }
{
    for byte in text {
        if !is_name_byte(*byte) {
            return false;
        }
    }
    true
}

// What an APIService may name its service or its namespace: 1 to 253 lower-case letters, digits, `-` and `.`.
pub fn is_service_name(text: &str) -> bool
    ensures { result ≡ object.is_service_name text.now }
{
    !text.is_empty() && text.len() < 254 && are_name_bytes(text.as_bytes())
}

fn has_leading_zero(text: &[u8]) -> bool
    ensures { result ≡ number.has_leading_zero text.now }
{
    match text {
        [b'0', rest @ ..] => !rest.is_empty(),
        _ => false,
    }
}

// A port from 1 to 65535, in decimal without leading zeros.
#[tactic(auto, unfolding(front_base::specs::Address::port_of, front_base::specs::Number::plain_number_of))]
pub fn is_port(text: &str) -> bool
    ensures { result ≡ spec.is_port text.now }
{
    let text = text.as_bytes();
    if has_leading_zero(text) {
        return false;
    }
    match number_of(text) {
        Some(port) => 0 < port && port <= 65535,
        None => false,
    }
}
