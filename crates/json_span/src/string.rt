ghost use Rattle.std.specs.Prelude.{◌≡◌, ◌≤◌, true, length, take, Some, None, if◌then◌else◌};
ghost use Rattle.std.specs.List.{list_all};
ghost use Rattle.json_span.specs.Strings as strings;
ghost use Rattle.json_span.specs.Strings.{is_hex, within};
ghost use Rattle.json_span.specs.Machine as spec;

// Where a string stands: which bytes may come next (RFC 8259, section 7; RFC 3629, section 4).
#[derive(Clone, Copy, Debug, PartialEq, Eq)]
pub enum Inside {
    Start,
    Plain,
    Escape,
    Hex4,
    Hex3,
    Hex2,
    Hex1,
    Tail1,
    Tail2,
    Tail3,
    AfterE0,
    AfterEd,
    AfterF0,
    AfterF4,
    Closed,
}

fn if_within(low: u8, byte: u8, high: u8, next: Inside) -> Option<Inside>
    ensures { result ≡ (if within low high byte then Some next else None) }
{
    if low <= byte && byte <= high {
        Some(next)
    } else {
        None
    }
}

fn if_hex(byte: u8, next: Inside) -> Option<Inside>
    ensures { result ≡ (if is_hex byte then Some next else None) }
{
    if matches!(byte, b'0'..=b'9' | b'A'..=b'F' | b'a'..=b'f') {
        Some(next)
    } else {
        None
    }
}

fn plain_step(byte: u8) -> Option<Inside>
    ensures { result ≡ spec.string_step Inside.Plain byte }
{
    match byte {
        b'"' => Some(Inside::Closed),
        b'\\' => Some(Inside::Escape),
        32..=127 => Some(Inside::Plain),
        194..=223 => Some(Inside::Tail1),
        224 => Some(Inside::AfterE0),
        225..=236 => Some(Inside::Tail2),
        237 => Some(Inside::AfterEd),
        238..=239 => Some(Inside::Tail2),
        240 => Some(Inside::AfterF0),
        241..=243 => Some(Inside::Tail3),
        244 => Some(Inside::AfterF4),
        _ => None,
    }
}

fn escape_step(byte: u8) -> Option<Inside>
    ensures { result ≡ spec.string_step Inside.Escape byte }
{
    match byte {
        b'"' | b'\\' | b'/' | b'b' | b'f' | b'n' | b'r' | b't' => Some(Inside::Plain),
        b'u' => Some(Inside::Hex4),
        _ => None,
    }
}

pub fn string_step(inside: Inside, byte: u8) -> Option<Inside>
    ensures { result ≡ spec.string_step inside byte }
{
    match inside {
        Inside::Start => {
            if byte == b'"' {
                Some(Inside::Plain)
            } else {
                None
            }
        }
        Inside::Plain => plain_step(byte),
        Inside::Escape => escape_step(byte),
        Inside::Hex4 => if_hex(byte, Inside::Hex3),
        Inside::Hex3 => if_hex(byte, Inside::Hex2),
        Inside::Hex2 => if_hex(byte, Inside::Hex1),
        Inside::Hex1 => if_hex(byte, Inside::Plain),
        Inside::Tail1 => if_within(128, byte, 191, Inside::Plain),
        Inside::Tail2 => if_within(128, byte, 191, Inside::Tail1),
        Inside::Tail3 => if_within(128, byte, 191, Inside::Tail2),
        Inside::AfterE0 => if_within(160, byte, 191, Inside::Tail1),
        Inside::AfterEd => if_within(128, byte, 159, Inside::Tail1),
        Inside::AfterF0 => if_within(144, byte, 191, Inside::Tail2),
        Inside::AfterF4 => if_within(128, byte, 143, Inside::Tail2),
        Inside::Closed => None,
    }
}

fn is_plain(byte: u8) -> bool
    ensures { result ≡ strings.is_plain byte }
{
    32 <= byte && byte <= 127 && byte != b'"' && byte != b'\\'
}

// How many bytes at the start are characters of ASCII that stand for themselves.
pub fn plain_len(text: &[u8]) -> usize
    ensures within { result ≤ length text.now }
    ensures plain { list_all strings.is_plain (take result text.now) ≡ true }
{
    let mut len = 0;
    while len < text.len() && is_plain(text[len]) {
        len += 1;
    }
    len
}

pub fn string_ends(inside: Inside) -> bool
    ensures { result ≡ spec.string_ends inside }
{
    matches!(inside, Inside::Closed)
}
