ghost use Rattle.std.specs.Prelude.{◌≡◌, ◌≤◌, length, false};
ghost use Rattle.json_prune.specs.Skip as spec;

use crate::mark::{Mark, mark_of};
use memchr::memchr2;

// How many bytes are left of a string, its closing quotation mark among them.
pub fn string_len(text: &[u8]) -> usize
    ensures size { result ≡ spec.string_size false text.now }
    ensures within { result ≤ length text.now }
{
    let mut at = 0;
    while let Some(further) = memchr2(b'"', b'\\', &text[at..]) {
        let mark = at + further;
        if text[mark] == b'"' {
            return mark + 1;
        }
        at = text.len().min(mark + 2);
    }
    text.len()
}

// How many bytes stand before the first comma or closing bracket that belongs to none of them: in compact text, a value.
pub fn value_len(text: &[u8]) -> usize
    ensures size { result ≡ spec.value_size text.now }
    ensures within { result ≤ length text.now }
{
    let mut many = 0usize;
    let mut at = 0;
    while at < text.len() {
        match mark_of(text[at]) {
            Mark::Quote => at += string_len(&text[at + 1..]),
            Mark::Opens => many += 1,
            Mark::Closes => {
                if many == 0 {
                    return at;
                }
                many -= 1;
            }
            Mark::Comma => {
                if many == 0 {
                    return at;
                }
            }
            Mark::Other => {}
        }
        at += 1;
    }
    text.len()
}
