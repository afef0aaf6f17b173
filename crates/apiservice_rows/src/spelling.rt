// What names, groups and versions may be spelled with.
ghost use Rattle.std.specs.Prelude.{◌≡◌, true, false};
ghost use Rattle.apiservice_rows.specs.Object as spec;
ghost use Rattle.apiservice_rows.specs.Row.{has_dot};

fn is_version_byte(byte: u8) -> bool
    ensures { result ≡ spec.is_version_byte byte }
{
    byte.is_ascii_lowercase() || byte.is_ascii_digit() || byte == b'-'
}

fn are_version_bytes(text: &[u8]) -> bool
    ensures { result ≡ spec.are_version_bytes text.now }
{
    for byte in text {
        if !is_version_byte(*byte) {
            return false;
        }
    }
    true
}

fn are_name_bytes(text: &[u8]) -> bool
    ensures { result ≡ spec.are_name_bytes text.now }
{
    for byte in text {
        if !is_version_byte(*byte) && *byte != b'.' {
            return false;
        }
    }
    true
}

// At most 253 lower-case letters, digits, `-` and `.`.
pub fn is_group(text: &str) -> bool
    ensures { result ≡ spec.is_group text.now }
{
    text.len() < 254 && are_name_bytes(text.as_bytes())
}

// The same, and at least one.
pub fn is_service_name(text: &str) -> bool
    ensures { result ≡ spec.is_service_name text.now }
{
    !text.is_empty() && is_group(text)
}

fn begins_with_letter(text: &[u8]) -> bool
    ensures { result ≡ spec.begins_with_letter text.now }
{
    match text {
        [first, ..] => first.is_ascii_lowercase(),
        [] => false,
    }
}

// 1 to 63 lower-case letters, digits and `-`, the first a letter.
pub fn is_version(text: &str) -> bool
    ensures value { result ≡ spec.is_version text.now }
    ensures no_dot { result ≡ true → has_dot text.now ≡ false }
{
    let bytes = text.as_bytes();
    if bytes.len() > 63 {
        return false;
    }
    if !begins_with_letter(bytes) {
        return false;
    }
    are_version_bytes(bytes)
}
