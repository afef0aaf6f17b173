// Whether a query asks for a watch.
ghost use Rattle.std.specs.Prelude.{◌≡◌, IfOk, bytes_eq, codes};
ghost use Rattle.request_info.specs.Watch as spec;

use form_urlencoded::{decode, raw_pairs};
use std::alloc::{AllocError, Global};

fn is_yes(value: &str) -> bool
    ensures { result ≡ spec.is_yes value.now }
{
    !(value.eq_ignore_ascii_case("false") || value.eq_ignore_ascii_case("0"))
}

fn is_named_watch(alloc: Global, name: &[u8]) -> Result<bool, AllocError>
    ensures { IfOk result (λ named. named ≡ bytes_eq (spec.text_of name.now) (codes "watch")) }
{
    let name = decode(alloc, name)?;
    Ok(name.as_str() == "watch")
}

fn says_yes(alloc: Global, value: &[u8]) -> Result<bool, AllocError>
    ensures { IfOk result (λ yes. yes ≡ spec.is_yes (spec.text_of value.now)) }
{
    let value = decode(alloc, value)?;
    Ok(is_yes(value.as_str()))
}

/// Whether the first pair named `watch` says yes.
pub fn asks_watch(alloc: Global, query: &str) -> Result<bool, AllocError>
    ensures { IfOk result (λ asks. asks ≡ spec.asks_watch query.now) }
{
    for (name, value) in raw_pairs(query.as_bytes()) {
        if is_named_watch(alloc, name)? {
            return says_yes(alloc, value);
        }
    }
    Ok(false)
}
