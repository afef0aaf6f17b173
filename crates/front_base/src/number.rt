// Numbers in decimal digits, which keep leading zeros where a format has them.
ghost use Rattle.std.specs.Prelude.{◌≡◌, ◌≤◌, IfSome};
ghost use Rattle.front_base.specs.Number as spec;

// Whether there is one digit or more and nothing else.
fn is_number(text: &[u8]) -> bool
    ensures { result ≡ spec.is_number text.now }
{
    for byte in text {
        if !byte.is_ascii_digit() {
            return false;
        }
    }
    !text.is_empty()
}

/// The number that decimal digits spell, which may begin with zeros. None for 2^64 and more, for an empty text, and
/// where there is anything but digits, as a sign.
pub fn number_of(text: &[u8]) -> Option<u64>
    ensures { result ≡ spec.number_of text.now }
{
    if !is_number(text) {
        return None;
    }
    match str::from_utf8(text) {
        Ok(digits) => digits.parse::<u64>().ok(),
        Err(_) => None,
    }
}

fn has_leading_zero(text: &[u8]) -> bool
    ensures { result ≡ spec.has_leading_zero text.now }
{
    match text {
        [b'0', rest @ ..] => !rest.is_empty(),
        _ => false,
    }
}

// The number that digits without a leading zero spell, where it is at most that.
#[tactic(auto, unfolding(crate::specs::Number::plain_number_of))]
pub fn plain_number_of(most: u64, text: &[u8]) -> Option<u64>
    ensures value { result ≡ spec.plain_number_of most text.now }
    ensures within { IfSome result (λ number. number ≤ most) }
{
    if has_leading_zero(text) {
        return None;
    }
    match number_of(text) {
        Some(number) if number <= most => Some(number),
        _ => None,
    }
}
