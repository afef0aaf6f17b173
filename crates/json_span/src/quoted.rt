ghost use Rattle.std.specs.Prelude.{◌≡◌, ◌<◌, ◌≤◌, ◌++◌, true, length, take, drop, IfOk, OnOk, OnErr, flat_map};
ghost use Rattle.std.specs.List.{list_all};
ghost use Rattle.json_span.specs.Quote as spec;

use std::alloc::{AllocError, Global};

fn hex_digit(n: u8) -> u8
    requires { n < 16 }
    ensures { result ≡ spec.hex_digit n }
{
    if n < 10 { b'0' + n } else { b'a' - 10 + n }
}

// The letter of a short escape.
fn short_escape(byte: u8) -> Option<u8>
    ensures { result ≡ spec.short_escape byte }
{
    match byte {
        b'"' => Some(b'"'),
        b'\\' => Some(b'\\'),
        8 => Some(b'b'),
        b'\t' => Some(b't'),
        b'\n' => Some(b'n'),
        12 => Some(b'f'),
        b'\r' => Some(b'r'),
        _ => None,
    }
}

fn push_escaped(out: &mut Vec<u8>, byte: u8) -> Result<(), AllocError>
    ensures ok { OnOk result (out.new.items ≡ out.old.items ++ spec.escaped byte) }
    ensures kept { OnErr result (out.new.items ≡ out.old.items) }
{
    if let Some(letter) = short_escape(byte) {
        out.extend_from_slice(&[b'\\', letter])?;
    } else if byte < 32 {
        let escape = [
            b'\\',
            b'u',
            b'0',
            b'0',
            hex_digit(byte / 16),
            hex_digit(byte % 16),
        ];
        out.extend_from_slice(&escape)?;
    } else {
        out.push(byte)?;
    }
    Ok(())
}

// Whether the byte stands for itself.
fn stands_for_itself(byte: u8) -> bool
    ensures { result ≡ spec.stands_for_itself byte }
{
    byte >= 32 && byte != b'"' && byte != b'\\'
}

// How many bytes at the start stand for themselves.
fn plain_len(text: &[u8]) -> usize
    ensures within { result ≤ length text.now }
    ensures plain { list_all spec.stands_for_itself (take result text.now) ≡ true }
{
    let mut len = 0;
    while len < text.len() && stands_for_itself(text[len]) {
        len += 1;
    }
    len
}

// The bytes that stand for themselves are copied in whole ranges.
fn push_inside(out: &mut Vec<u8>, text: &[u8]) -> Result<(), AllocError>
    ensures ok { OnOk result (out.new.items ≡ out.old.items ++ flat_map spec.escaped text.now) }
    ensures kept { OnErr result (take (length out.old.items) out.new.items ≡ out.old.items) }
{
    let mut at = 0;
    while at < text.len() {
        let end = at + plain_len(&text[at..]);
        out.extend_from_slice(&text[at..end])?;
        if end == text.len() {
            return Ok(());
        }
        push_escaped(out, text[end])?;
        at = end + 1;
    }
    Ok(())
}

fn push_string(out: &mut Vec<u8>, text: &[u8]) -> Result<(), AllocError>
    ensures ok { OnOk result (out.new.items ≡ out.old.items ++ spec.quoted text.now) }
    ensures kept { OnErr result (take (length out.old.items) out.new.items ≡ out.old.items) }
{
    out.push(b'"')?;
    push_inside(out, text)?;
    out.push(b'"')?;
    Ok(())
}

/// Writes the text after what is there, as `quote` spells it. Where memory runs out, what is there stays as it was.
pub fn push_quoted(out: &mut Vec<u8>, text: &str) -> Result<(), AllocError>
    ensures ok { OnOk result (out.new.items ≡ out.old.items ++ spec.quoted text.now) }
    ensures kept { OnErr result (out.new.items ≡ out.old.items) }
{
    let start = out.len();
    let written = push_string(out, text.as_bytes());
    if written.is_err() {
        out.truncate(start);
    }
    written
}

/// Spells what stands from `start` on as the inside of a JSON string, for a text that was written in its place. Where no
/// byte of it needs an escape nothing changes, and no memory is needed. Where memory runs out, only what stood before
/// `start` is sure to stay.
pub fn escape_from(out: &mut Vec<u8>, start: usize) -> Result<(), AllocError>
    requires { start ≤ length out.old.items }
    ensures ok { OnOk result (out.new.items
        ≡ take start out.old.items ++ flat_map spec.escaped (drop start out.old.items)) }
    ensures kept { OnErr result (take start out.new.items ≡ take start out.old.items) }
{
    if plain_len(&out[start..]) == out.len() - start {
        return Ok(());
    }
    let text = out[start..].to_vec(*out.allocator())?;
    out.truncate(start);
    push_inside(out, text.as_slice())
}

/// The text as a JSON string, with its quotation marks: short escapes where there are any, `\u00` and two lower-case
/// digits for the other control characters, and all else as it is.
pub fn quote(alloc: Global, text: &str) -> Result<Vec<u8>, AllocError>
    ensures { IfOk result (λ string. string.items ≡ spec.quoted text.now) }
{
    let mut string = Vec::with_capacity(alloc, text.len().saturating_add(2))?;
    push_quoted(&mut string, text)?;
    Ok(string)
}
