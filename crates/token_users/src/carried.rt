// Texts that a header line carries as they are (RFC 9110, section 5.5).
ghost use Rattle.std.specs.Prelude.{◌≡◌};
ghost use Rattle.http_head.specs.Connection.{is_blank};
ghost use Rattle.token_users.specs.Carried as spec;

/// Whether no byte is a control character of ASCII.
pub fn is_plain(text: &str) -> bool
    ensures { result ≡ spec.is_plain text.now }
{
    text.as_bytes().iter().all(|b| *b >= 32 && *b != 127)
}

fn is_space(b: u8) -> bool
    ensures { result ≡ is_blank b }
{
    b == b' ' || b == b'\t'
}

fn has_blank_at(bytes: &[u8], i: usize) -> bool
    ensures { result ≡ spec.has_blank_at bytes.now i }
{
    match bytes.get(i) {
        Some(b) => is_space(*b),
        None => false,
    }
}

/// Whether it begins or ends with a space or a tab.
pub fn has_blank_ends(bytes: &[u8]) -> bool
    ensures { result ≡ spec.has_blank_ends bytes.now }
{
    has_blank_at(bytes, 0) || has_blank_at(bytes, bytes.len().saturating_sub(1))
}
