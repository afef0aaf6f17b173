// What the Connection headers of a head ask for (RFC 9112, section 9.6; RFC 9110, section 7.6.1).
ghost use Rattle.std.specs.Prelude.{◌≡◌, ◌≤◌, IsTrue, length};
ghost use Rattle.std.specs.List.{list_all};
ghost use Rattle.http_head.specs.Connection as spec;

use crate::header::Headers;

fn is_blank(b: u8) -> bool
    ensures { result ≡ spec.is_blank b }
{
    b == b' ' || b == b'\t'
}

// How many blanks the bytes begin with.
fn blank_len(bytes: &[u8]) -> usize
    ensures value { result ≡ spec.blank_len bytes.now }
    ensures within { result ≤ length bytes.now }
{
    match bytes.iter().position(|b| !is_blank(*b)) {
        Some(i) => i,
        None => bytes.len(),
    }
}

fn are_blank(bytes: &[u8]) -> bool
    ensures { result ≡ list_all spec.is_blank bytes.now }
{
    bytes.iter().all(|b| is_blank(*b))
}

fn begins(bytes: &[u8], name: &[u8]) -> bool
    ensures value { result ≡ spec.begins name.now bytes.now }
    ensures within { IsTrue result → length name.now ≤ length bytes.now }
{
    name.len() <= bytes.len() && bytes[..name.len()].eq_ignore_ascii_case(name)
}

fn is_element(part: &[u8], name: &str) -> bool
    ensures { result ≡ spec.is_element name.now part.now }
{
    let rest = &part[blank_len(part)..];
    let name = name.as_bytes();
    begins(rest, name) && are_blank(&rest[name.len()..])
}

fn has_element(value: &[u8], name: &str) -> bool
    ensures { result ≡ spec.has_element name.now value.now }
{
    value
        .split(|b| *b == b',')
        .any(|part| is_element(part, name))
}

/// Whether each element of a header's value has that name. Elements stand between commas, blanks round them don't count,
/// and ASCII case is ignored (RFC 9110, section 5.6.1). An empty element has no name.
pub fn has_only(value: &[u8], name: &str) -> bool
    ensures { result ≡ spec.has_only name.now value.now }
{
    value
        .split(|byte| *byte == b',')
        .all(|part| is_element(part, name))
}

/// Whether a Connection header names that option (RFC 9110, section 7.6.1). Options stand between commas, blanks round
/// them don't count, and ASCII case is ignored.
pub fn has_option(headers: &Headers, name: &str) -> bool
    ensures { result ≡ spec.has_option name.now headers.now }
{
    headers.as_slice().iter().any(|header| header.is_named("connection")
        && has_element(header.value.as_slice(), name))
}

/// Whether a Connection header names the option `close`: no other request of the connection is read (RFC 9112, section
/// 9.6).
pub fn asks_to_close(headers: &Headers) -> bool
    ensures { result ≡ spec.asks_to_close headers.now }
{
    has_option(headers, "close")
}
