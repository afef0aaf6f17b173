// Which Accept headers ask for a Table.
ghost use Rattle.std.specs.Prelude.{◌≡◌, ◌≤◌, IsTrue, length, option_map};
ghost use Rattle.std.specs.List.{list_all, list_any, find, slice_split};
ghost use Rattle.apiservice_columns.specs.Accept as spec;

use http_head::has_only;

fn is_blank(byte: u8) -> bool
    ensures { result ≡ spec.is_blank byte }
{
    byte == b' ' || byte == b'\t'
}

// How many blanks the bytes begin with.
fn blank_len(text: &[u8]) -> usize
    ensures value { result ≡ spec.blank_len text.now }
    ensures within { result ≤ length text.now }
{
    match text.iter().position(|byte| !is_blank(*byte)) {
        Some(i) => i,
        None => text.len(),
    }
}

fn unindented(text: &[u8]) -> &[u8]
    ensures { result.now ≡ spec.unindented text.now }
{
    &text[blank_len(text)..]
}

fn begins(text: &[u8], word: &str) -> bool
    ensures value { result ≡ spec.begins word.now text.now }
    ensures within { IsTrue result → length word.now ≤ length text.now }
{
    text.starts_with(word.as_bytes())
}

fn are_blank(text: &[u8]) -> bool
    ensures { result ≡ list_all spec.is_blank text.now }
{
    text.iter().all(|byte| is_blank(*byte))
}

// The word, with blanks round it.
fn is_word(part: &[u8], word: &str) -> bool
    ensures { result ≡ spec.is_word word.now part.now }
{
    let rest = unindented(part);
    begins(rest, word) && are_blank(&rest[word.len()..])
}

// What stands before the first equals sign.
fn name_of(part: &[u8]) -> &[u8]
    ensures { result.now ≡ spec.name_of part.now }
{
    match part.iter().position(|byte| *byte == b'=') {
        Some(i) => &part[..i],
        None => part,
    }
}

// What stands after it.
fn value_of(part: &[u8]) -> &[u8]
    ensures { result.now ≡ spec.value_of part.now }
{
    match part.iter().position(|byte| *byte == b'=') {
        Some(i) => &part[i + 1..],
        None => &[],
    }
}

fn is_named(part: &[u8], name: &str) -> bool
    ensures { result ≡ spec.is_named name.now part.now }
{
    has_only(name_of(part), name)
}

fn is_parameter(part: &[u8], name: &str, value: &str) -> bool
    ensures { result ≡ spec.is_parameter name.now value.now part.now }
{
    is_named(part, name) && is_word(value_of(part), value)
}

fn is_transform(part: &[u8]) -> bool
    ensures { result ≡ spec.is_transform part.now }
{
    is_named(part, "as") || is_named(part, "g") || is_named(part, "v")
}

fn has_type(range: &[u8], name: &str) -> bool
    ensures { result ≡ spec.has_type name.now range.now }
{
    range
        .split(|byte| *byte == b';')
        .any(|part| has_only(part, name))
}

fn has_parameter(range: &[u8], name: &str, value: &str) -> bool
    ensures { result ≡ spec.has_parameter name.now value.now range.now }
{
    range
        .split(|byte| *byte == b';')
        .any(|part| is_parameter(part, name, value))
}

fn has_transform(range: &[u8]) -> bool
    ensures { result ≡ list_any spec.is_transform (spec.parts range.now) }
{
    range
        .split(|byte| *byte == b';')
        .any(|part| is_transform(part))
}

fn takes_json(range: &[u8]) -> bool
    ensures { result ≡ spec.takes_json range.now }
{
    has_type(range, "application/json")
        || has_type(range, "application/*")
        || has_type(range, "*/*")
}

fn is_table(range: &[u8]) -> bool
    ensures { result ≡ spec.is_table range.now }
{
    has_parameter(range, "as", "Table")
        && has_parameter(range, "g", "meta.k8s.io")
        && has_parameter(range, "v", "v1")
}

fn is_acceptable(range: &[u8]) -> bool
    ensures { result ≡ spec.is_acceptable range.now }
{
    takes_json(range) && (is_table(range) || !has_transform(range))
}

fn first_acceptable<'a>(accept: &'a [u8]) -> Option<&'a [u8]>
    ensures { option_map (λ range. range.now) result
        ≡ find spec.is_acceptable (slice_split spec.is_comma accept.now) }
{
    accept
        .split(|byte| *byte == b',')
        .find(|range| is_acceptable(*range))
}

/// Whether the value of an Accept header asks for a Table of `meta.k8s.io/v1`: the first media range that can be given decides.
/// A range can be given where it takes JSON and either names that Table by its parameters `as`, `g` and `v` or has none of
/// these. The type and the names of parameters have no case, the values of these have one, and blanks round each don't count.
/// Quality values are not looked at, as kubectl sends none; kube-apiserver sorts by them.
#[tactic(auto, unfolding(crate::specs::Accept::asks_for_table))]
pub fn asks_for_table(accept: &[u8]) -> bool
    ensures { result ≡ spec.asks_for_table accept.now }
{
    match first_acceptable(accept) {
        Some(range) => is_table(range),
        None => false,
    }
}
