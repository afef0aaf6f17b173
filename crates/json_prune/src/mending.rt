ghost use Rattle.std.specs.Prelude.{◌≡◌, ◌≤◌, ◌<◌, ◌++◌, length, take, drop, slice_index};
ghost use Rattle.json_prune.specs.Mend as spec;

use crate::halves::{is_half, is_pair};
use memchr::memchr;

// Mends the escape whose backslash is at a byte, and says where it ends.
fn mend_escape(text: &mut [u8], at: usize) -> usize
    requires within { at < length text.old }
    requires backslash { slice_index text.old at ≡ 92 }
    ensures further { (at < result) × (result ≤ length text.old) }
    ensures mended { take result text.new ++ spec.mend (drop result text.old) ≡ take at text.old ++ spec.mend (drop at text.old) }
    ensures rest { drop result text.new ≡ drop result text.old }
{
    if is_pair(&text[at + 1..]) {
        return at + 12;
    }
    if is_half(&text[at + 1..]) {
        text[at + 2..at + 6].copy_from_slice(b"fffd");
        return at + 6;
    }
    text.len().min(at + 2)
}

// Where the first backslash from a byte on stands; the end where there is none.
fn next_escape(text: &[u8], from: usize) -> usize
    requires { from ≤ length text.now }
    ensures within { (from ≤ result) × (result ≤ length text.now) }
    ensures mended { take result text.now ++ spec.mend (drop result text.now) ≡ take from text.now ++ spec.mend (drop from text.now) }
    ensures stops { result < length text.now → slice_index text.now result ≡ 92 }
{
    match memchr(b'\\', &text[from..]) {
        Some(further) => from + further,
        None => text.len(),
    }
}

/// Puts `\ufffd` in the place of each escape of half a surrogate pair.
pub fn mend(text: &mut [u8])
    ensures { text.new ≡ spec.mend text.old }
{
    let mut at = next_escape(text, 0);
    while at < text.len() {
        let end = mend_escape(text, at);
        at = next_escape(text, end);
    }
}
