// Whether the bytes behind a backslash are an escape of half a surrogate pair.
ghost use Rattle.std.specs.Prelude.{◌≡◌, ◌≤◌, ◌&&◌, ◌||◌, true, length};
ghost use Rattle.json_span.specs.Strings.{is_hex};
ghost use Rattle.json_prune.specs.Mend as spec;

fn both(a: bool, b: bool) -> bool
    ensures { result ≡ (a && b) }
{
    a && b
}

fn is_d(byte: u8) -> bool
    ensures { result ≡ spec.is_d byte }
{
    matches!(byte, b'D' | b'd')
}

fn is_hex(byte: u8) -> bool
    ensures { result ≡ is_hex byte }
{
    matches!(byte, b'0'..=b'9' | b'A'..=b'F' | b'a'..=b'f')
}

fn is_high_digit(byte: u8) -> bool
    ensures { result ≡ spec.is_high_digit byte }
{
    matches!(byte, b'8'..=b'9' | b'A'..=b'B' | b'a'..=b'b')
}

fn is_low_digit(byte: u8) -> bool
    ensures { result ≡ spec.is_low_digit byte }
{
    matches!(byte, b'C'..=b'F' | b'c'..=b'f')
}

fn is_high(text: &[u8]) -> bool
    ensures tests { result ≡ spec.begins spec.high text.now }
    ensures long { result ≡ true → 5 ≤ length text.now }
{
    if text.len() < 5 {
        return false;
    }
    let last = both(is_hex(text[3]), is_hex(text[4]));
    let digits = both(is_high_digit(text[2]), last);
    let code = both(is_d(text[1]), digits);
    both(text[0] == b'u', code)
}

fn is_low(text: &[u8]) -> bool
    ensures tests { result ≡ spec.begins spec.low text.now }
    ensures long { result ≡ true → 5 ≤ length text.now }
{
    if text.len() < 5 {
        return false;
    }
    let last = both(is_hex(text[3]), is_hex(text[4]));
    let digits = both(is_low_digit(text[2]), last);
    let code = both(is_d(text[1]), digits);
    both(text[0] == b'u', code)
}

pub fn is_half(text: &[u8]) -> bool
    ensures tests { result ≡ (spec.begins spec.high text.now || spec.begins spec.low text.now) }
    ensures long { result ≡ true → 5 ≤ length text.now }
{
    is_high(text) || is_low(text)
}

pub fn is_pair(text: &[u8]) -> bool
    ensures tests { result ≡ spec.begins spec.pair text.now }
    ensures long { result ≡ true → 11 ≤ length text.now }
{
    if text.len() < 6 {
        return false;
    }
    let second = both(text[5] == b'\\', is_low(&text[6..]));
    both(is_high(text), second)
}
