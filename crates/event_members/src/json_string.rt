// Strings of JSON, as lines spell them.
ghost use Rattle.std.specs.Prelude.{◌≡◌, length};
ghost use Rattle.event_members.specs.TextMembers as spec;
ghost use Rattle.event_members.specs.TextMembers.{Gives};

use crate::fault::EventFault;
use front_base::Text;
use std::alloc::Global;

// What stands after a word, where it comes next.
pub fn after_if<'b>(bytes: &'b [u8], word: &[u8]) -> Option<&'b [u8]>
    ensures { spec.IsAfter result (spec.after_word word.now bytes.now) }
{
    bytes.strip_prefix(word)
}

// What stands after a word.
pub fn after<'b>(bytes: &'b [u8], word: &[u8]) -> Result<&'b [u8], EventFault>
    ensures { Gives (λ rest. rest.now) result (spec.after_word word.now bytes.now) }
{
    match after_if(bytes, word) {
        Some(rest) => Ok(rest),
        None => Err(EventFault::NotAnEvent),
    }
}

fn hex_value(digit: u8) -> u8
    ensures { result ≡ spec.hex_value digit }
{
    if digit < 58 {
        digit.saturating_sub(48)
    } else {
        digit.saturating_sub(87)
    }
}

fn unescaped(letter: u8) -> u8
    ensures { result ≡ spec.unescaped letter }
{
    match letter {
        b'b' => 8,
        b't' => 9,
        b'n' => 10,
        b'f' => 12,
        b'r' => 13,
        _ => letter,
    }
}

// A control character, after `\u`.
fn control_of(bytes: &[u8]) -> Result<(u8, &[u8]), EventFault>
    ensures { Gives (λ x. (x.0, x.1.now)) result (spec.control_at bytes.now) }
{
    match bytes {
        [_, _, high, low, rest @ ..] => {
            let value = hex_value(*low);
            Ok((if *high == b'1' { 16 + value } else { value }, rest))
        }
        _ => Err(EventFault::NotAnEvent),
    }
}

// An escape, after its backslash.
fn escape_of(bytes: &[u8]) -> Result<(u8, &[u8]), EventFault>
    ensures { Gives (λ x. (x.0, x.1.now)) result (spec.escape_at bytes.now) }
{
    match bytes {
        [] => Err(EventFault::NotAnEvent),
        [letter, rest @ ..] => {
            if *letter == b'u' {
                control_of(rest)
            } else {
                Ok((unescaped(*letter), rest))
            }
        }
    }
}

// A byte, or the escape that stands for it.
fn piece_of(bytes: &[u8]) -> Result<(u8, &[u8]), EventFault>
    ensures { Gives (λ x. (x.0, x.1.now)) result (spec.piece_at bytes.now) }
{
    match bytes {
        [] => Err(EventFault::NotAnEvent),
        [byte, rest @ ..] => {
            if *byte == b'\\' {
                escape_of(rest)
            } else {
                Ok((*byte, rest))
            }
        }
    }
}

// What stands after the mark, where it comes next.
pub fn closed(bytes: &[u8], mark: u8) -> Option<&[u8]>
    ensures { spec.IsClosed mark result bytes.now }
{
    match bytes {
        [byte, rest @ ..] if *byte == mark => Some(rest),
        _ => None,
    }
}

// The bytes up to the closing mark.
fn inside_of(alloc: Global, bytes: &[u8]) -> Result<(Vec<u8>, &[u8]), EventFault>
    ensures { Gives (λ x. (x.0.items, x.1.now)) result (spec.up_to 34 spec.piece_at (length bytes.now) bytes.now) }
{
    let mut text = Vec::new(alloc);
    let mut rest = bytes;
    for _ in 0..bytes.len() {
        if let Some(after) = closed(rest, b'"') {
            return Ok((text, after));
        }
        let (byte, after) = piece_of(rest)?;
        text.push(byte)?;
        rest = after;
    }
    Err(EventFault::NotAnEvent)
}

#[tactic(auto, unfolding(crate::specs::TextMembers::string_at))]
pub fn string_of(alloc: Global, bytes: &[u8]) -> Result<(Vec<u8>, &[u8]), EventFault>
    ensures { Gives (λ x. (x.0.items, x.1.now)) result (spec.string_at bytes.now) }
{
    inside_of(alloc, after(bytes, b"\"")?)
}

/// The text of the string at the front, and what stands after it.
#[tactic(auto, unfolding(crate::specs::TextMembers::text_at))]
pub fn text_of(alloc: Global, bytes: &[u8]) -> Result<(Text, &[u8]), EventFault>
    ensures { Gives (λ x. (x.0, x.1.now)) result (spec.text_at bytes.now) }
{
    let (string, rest) = string_of(alloc, bytes)?;
    match String::from_utf8(string) {
        Ok(text) => Ok((Text::new(text), rest)),
        Err(_) => Err(EventFault::NotAnEvent),
    }
}
