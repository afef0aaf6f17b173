// What a reply lists.
ghost use Rattle.std.specs.Prelude.{◌≡◌, IfOk, option_map};
ghost use Rattle.json_span.specs.Value.{Value, StandsFor, flat};
ghost use Rattle.group_resources.specs.Lists as spec;

use crate::array::begins;
use front_base::{Bytes, NoMemory};
use json_span::{JsonError, compact, compact_keeps_the_value, member, one_value, quote};
use std::alloc::{AllocError, Global};

/// The most bytes of a reply's body that is read as a list.
pub const MOST_LIST_BYTES: usize = 4194304;

// Whether the first member of that name is that text.
fn is_text(alloc: Global, whole: &[u8], name: &str, text: &str) -> Result<bool, AllocError>
    ensures { (value : Value) → StandsFor whole.now value → whole.now ≡ flat value
        → IfOk result (spec.IsText (spec.value_of name.now value) text.now) }
{
    let Some((from, to)) = member(whole, name) else {
        return Ok(false);
    };
    let wanted = quote(alloc, text)?;
    Ok(&whole[from..to] == wanted.as_slice())
}

// The text of the first member of that name, where it is an array.
fn array_in<'a>(whole: &'a [u8], name: &str) -> Option<&'a [u8]>
    ensures { (value : Value) → StandsFor whole.now value → whole.now ≡ flat value
        → spec.IsArrayOf (spec.value_of name.now value) (option_map (λ text. text.now) result) }
{
    let (from, to) = member(whole, name)?;
    let text = &whole[from..to];
    if begins(text, b'[') { Some(text) } else { None }
}

fn copied(alloc: Global, text: Option<&[u8]>) -> Result<Option<Bytes>, NoMemory>
    ensures { IfOk result (λ copy. copy ≡ option_map (λ t. t.now) text.entry) }
{
    match text {
        Some(text) => Ok(Some(Bytes::new(text.to_vec(alloc)?))),
        None => Ok(None),
    }
}

// What the compact text of an object says of the group version.
fn resources_in(alloc: Global, group_version: &str, whole: &[u8]) -> Result<Option<Bytes>, NoMemory>
    ensures { (value : Value) → StandsFor whole.now value → whole.now ≡ flat value
        → IfOk result (spec.IsSaid group_version.now value) }
{
    if !is_text(alloc, whole, "kind", "APIResourceList")? {
        return Ok(None);
    }
    if !is_text(alloc, whole, "groupVersion", group_version)? {
        return Ok(None);
    }
    copied(alloc, array_in(whole, "resources"))
}

/// The array of resources that a reply lists of a group version, without white space. `Some` exactly where the status is 200, the body is a
/// JSON object of at most `MOST_LIST_BYTES` bytes, and its first members `kind`, `groupVersion` and `resources` are `APIResourceList`, the
/// group version as it is given, and an array.
pub fn read_list(
    alloc: Global,
    group_version: &str,
    status: u16,
    body: &[u8],
) -> Result<Option<Bytes>, NoMemory>
    ensures { IfOk result (spec.IsListed group_version.now status body.now) }
{
    one_value();
    compact_keeps_the_value();
    if status != 200 || MOST_LIST_BYTES < body.len() {
        return Ok(None);
    }
    let joined = match compact(alloc, body) {
        Ok(joined) => joined,
        Err(JsonError::NotJson(_)) => return Ok(None),
        Err(JsonError::NoMemory) => return Err(NoMemory),
    };
    resources_in(alloc, group_version, joined.as_slice())
}
