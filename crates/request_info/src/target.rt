// The path and the query of a target.
ghost use Rattle.std.specs.Prelude.{◌≡◌, IfOk, option_map, string_bytes};
ghost use Rattle.request_info.specs.Target as spec;

use front_base::NoMemory;
use percent_encoding::{DecodeError, percent_decode};
use std::alloc::Global;

// Whether each percent sign is followed by two hexadecimal digits.
fn are_escapes_whole(text: &[u8]) -> bool
    ensures { result ≡ spec.are_escapes_whole 0 text.now }
{
    let mut owed: u8 = 0;
    for b in text {
        if owed == 0 {
            owed = if *b == b'%' { 2 } else { 0 };
        } else if b.is_ascii_hexdigit() {
            owed -= 1;
        } else {
            return false;
        }
    }
    owed == 0
}

// The text that a path spells, if it spells one.
fn decoded(alloc: Global, spelled: &str) -> Result<Option<String>, NoMemory>
    ensures { IfOk result (λ text. option_map string_bytes text ≡ spec.decoded spelled.now) }
{
    if !are_escapes_whole(spelled.as_bytes()) {
        return Ok(None);
    }
    match percent_decode(spelled.as_bytes()).decode_utf8(alloc) {
        Ok(text) => Ok(Some(text.into_owned(alloc)?)),
        Err(DecodeError::Utf8(_)) => Ok(None),
        Err(DecodeError::OutOfMemory) => Err(NoMemory),
    }
}

fn spelled_path(target: &str) -> &str
    ensures { result.now ≡ spec.spelled_path target.now }
{
    match target.split_once('?') {
        Some((path, _)) => path,
        None => target,
    }
}

/// The query of a target, which is empty where there is none.
pub fn query_of(target: &str) -> &str
    ensures { result.now ≡ spec.query_of target.now }
{
    match target.split_once('?') {
        Some((_, query)) => query,
        None => "",
    }
}

/// The path of a target as text, if it has one.
pub fn path_of(alloc: Global, target: &str) -> Result<Option<String>, NoMemory>
    ensures { IfOk result (λ path. option_map string_bytes path ≡ spec.path_of target.now) }
{
    if !matches!(target.as_bytes(), [b'/', ..]) {
        return Ok(None);
    }
    decoded(alloc, spelled_path(target))
}
