// Where the head of a message ends, as its bytes alone show: at its first empty line.
ghost use Rattle.std.specs.Prelude.{◌≤◌, length};

use memchr::memchr;

/// Where the bytes of a message stand.
#[derive(Clone, Copy)]
pub(crate) enum Place {
    /// Nothing came but empty lines, which a receiver skips (RFC 9112, section 2.2).
    Start,
    InLine,
    LineEnd,
    CarriageReturn,
    Body,
}

pub(crate) fn place_after(place: Place, byte: u8) -> Place {
    match (place, byte) {
        (Place::Body, _) => Place::Body,
        (Place::Start, b'\r' | b'\n') => Place::Start,
        (Place::LineEnd | Place::CarriageReturn, b'\n') => Place::Body,
        (_, b'\n') => Place::LineEnd,
        (Place::LineEnd, b'\r') => Place::CarriageReturn,
        _ => Place::InLine,
    }
}

/// How many bytes stand before the first line feed: all, where there is none.
pub(crate) fn line_len(bytes: &[u8]) -> usize
    ensures { result ≤ length bytes.now }
{
    match memchr(b'\n', bytes) {
        Some(len) => len,
        None => bytes.len(),
    }
}
