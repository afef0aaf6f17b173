ghost use Rattle.std.specs.Prelude.{◌≡◌, ◌+◌, ◌≤◌, ◌<◌, ◌≢◌, ℕ, List, [], ◌∷◌, ◌++◌, length, drop, IfSome, Some, None, bytes_eq, slice_get};
ghost use Rattle.json_span.specs.Value.{Value, StandsFor, flat};
ghost use Rattle.json_span.specs.Member.{member_span};
ghost use Rattle.json_span.specs.Span as spec;

use crate::place::Place;
use crate::string::{Inside, string_step};

// How many bytes at the start belong to the string there.
fn string_len(text: &[u8]) -> usize
    ensures reach { result ≡ spec.string_reach Inside.Start text.now }
    ensures within { result ≤ length text.now }
{
    let mut inside = Inside::Start;
    for (at, byte) in text.iter().enumerate() {
        match string_step(inside, *byte) {
            Some(next) => inside = next,
            None => return at,
        }
    }
    text.len()
}

/// How many bytes at the start belong to the compact value there. A comma or a closing brace follows it.
pub fn value_len(text: &[u8]) -> usize
    ensures reach { result ≡ spec.place_reach spec.start text.now }
    ensures within { result ≤ length text.now }
{
    let mut place = Place::new();
    let mut at = 0;
    while at < text.len() {
        match place.pass(&text[at..]) {
            Some(passed) => at += passed,
            None => return at,
        }
    }
    at
}

// Whether the string says the name, as it is spelled.
fn is_name(string: &[u8], name: &str) -> bool
    ensures { (inner : List ℕ) → string.now ≡ 34 ∷ (inner ++ 34 ∷ [])
        → result ≡ bytes_eq inner name.now }
{
    2 <= string.len() && &string[1..string.len() - 1] == name.as_bytes()
}

// Where the name's string and the value of the member that begins at a place end.
fn entry_at(text: &[u8], at: usize) -> Option<(usize, usize)>
    requires { at ≤ length text.now }
    ensures entry { (n : List ℕ) (v : Value) (rest : List ℕ)
        → drop at text.now ≡ n ++ (58 ∷ (flat v ++ rest)) → spec.IsEntry n v → spec.EndsMember rest
        → result ≡ Some (at + length n, at + length n + 1 + length (flat v)) }
    ensures within { IfSome result (λ ends.
        (at ≤ ends.0) × (ends.0 < ends.1) × (ends.1 ≤ length text.now)) }
{
    let colon = at + string_len(&text[at..]);
    if colon == text.len() {
        return None;
    }
    Some((colon, colon + 1 + value_len(&text[colon + 1..])))
}

/// On the compact text of an object, where the value of the first member with this name begins and ends. The name is
/// compared as it is spelled, with no escape read. None where there is no such member, or the text is no object.
pub fn member(text: &[u8], name: &str) -> Option<(usize, usize)>
    ensures found { (v : Value) → StandsFor text.now v → text.now ≡ flat v
        → result ≡ member_span name.now v }
    ensures within { IfSome result (λ span. (span.0 ≤ span.1) × (span.1 ≤ length text.now)) }
    ensures no_object { slice_get text.now 0 ≢ Some 123 → result ≡ None }
{
    if text.is_empty() || text[0] != b'{' {
        return None;
    }
    let mut at = 1;
    while at < text.len() {
        if text[at] != b'"' {
            return None;
        }
        let (colon, to) = entry_at(text, at)?;
        if is_name(&text[at..colon], name) {
            return Some((colon + 1, to));
        }
        if to == text.len() || text[to] != b',' {
            return None;
        }
        at = to + 1;
    }
    None
}
