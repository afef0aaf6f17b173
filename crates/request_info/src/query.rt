// The values of a query.
ghost use Rattle.std.specs.Prelude.{◌≡◌, IfOk, Some, bytes_eq};
ghost use Rattle.request_info.specs.Query as spec;
ghost use Rattle.request_info.specs.Watch.{text_of};

use crate::target::query_of;
use form_urlencoded::{decode, raw_pairs};
use front_base::{NoMemory, Text};
use std::alloc::{AllocError, Global};

fn is_named(alloc: Global, name: &str, spelled: &[u8]) -> Result<bool, AllocError>
    ensures { IfOk result (λ named. named ≡ bytes_eq (text_of spelled.now) name.now) }
{
    let spelled = decode(alloc, spelled)?;
    Ok(spelled.as_str() == name)
}

fn some_text(alloc: Global, value: &[u8]) -> Result<Option<Text>, NoMemory>
    ensures { IfOk result (λ text. text ≡ Some (text_of value.now)) }
{
    let value = decode(alloc, value)?;
    Ok(Some(Text::copy_of(alloc, value.as_str())?))
}

/// The value of the first pair of that name in the query of a target, decoded (WHATWG URL, `application/x-www-form-urlencoded`), if
/// there is one.
pub fn query_value(alloc: Global, name: &str, target: &str) -> Result<Option<Text>, NoMemory>
    ensures { IfOk result (λ value. value ≡ spec.query_value name.now target.now) }
{
    for (spelled, value) in raw_pairs(query_of(target).as_bytes()) {
        if is_named(alloc, name, spelled)? {
            return some_text(alloc, value);
        }
    }
    Ok(None)
}
