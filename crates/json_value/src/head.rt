ghost use Rattle.std.specs.Prelude.{◌≡◌, None, false, option_map};
ghost use Rattle.serde_json.specs.View.{view};
ghost use Rattle.serde_json.specs.Written.{has_float};
ghost use Rattle.json_value.specs.Head as spec;

use crate::floats::has_float;
use crate::members::{is_text, present};
use serde_json::Value;

// Whether a member is that text; in a list it may be absent.
fn is_head_text(in_list: bool, text: &str, found: Option<&Value>) -> bool
    ensures { result ≡ spec.is_head_text in_list text.now (option_map (λ v. view v.now) found.entry) }
{
    match found {
        None => in_list,
        Some(value) => is_text(text, Some(value)),
    }
}

/// What makes a value no object of this kind and this version of its API, by the name of the member: `kind`, `apiVersion`,
/// or `number` for a number that isn't whole or doesn't fit 64 bits. In a list of such objects, kind and version may be
/// absent.
#[tactic(auto, unfolding(crate::specs::Head::head_fault))]
pub fn head_fault(in_list: bool, kind: &str, version: &str, value: &Value) -> Option<&'static str>
    ensures name { option_map (λ s. s.now) result
        ≡ spec.head_fault in_list kind.now version.now (view value.now) }
    ensures whole { result ≡ None → has_float (view value.now) ≡ false }
{
    if !is_head_text(in_list, kind, present(value, "kind")) {
        return Some("kind");
    }
    if !is_head_text(in_list, version, present(value, "apiVersion")) {
        return Some("apiVersion");
    }
    if has_float(value) {
        return Some("number");
    }
    None
}
