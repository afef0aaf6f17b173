// The directives of a strategic merge patch.
ghost use Rattle.std.specs.Prelude.{◌≡◌, IfOk};
ghost use Rattle.json_value.specs.Read.{value_of};
ghost use Rattle.serde_json.specs.View.{view, items_view, members_view};
ghost use Rattle.write_bodies.specs.Directives as spec;

use crate::value::value_in;
use front_base::NoMemory;
use serde_json::{Map, Value};
use std::alloc::Global;

fn is_directive(name: &str) -> bool
    ensures { result ≡ spec.is_directive name.now }
{
    matches!(name.as_bytes(), [b'$', ..])
}

#[cycle(directives)]
fn has_directive(value: &Value) -> bool
    ensures { result ≡ spec.has_directive (view value.now) }
{
    match value {
        Value::Array(items) => items_have_directive(items),
        Value::Object(members) => members_have_directive(members),
        _ => false,
    }
}

#[cycle(directives)]
fn items_have_directive(items: &Vec<Value>) -> bool
    ensures { result ≡ spec.items_have_directive (items_view items.now.items) }
{
    for item in items {
        if has_directive(item) {
            return true;
        }
    }
    false
}

#[cycle(directives)]
fn members_have_directive(members: &Map<String, Value>) -> bool
    ensures { result ≡ spec.members_have_directive (members_view members.now.entries) }
{
    for (name, member) in members.iter() {
        if is_directive(name.as_str()) || has_directive(member) {
            return true;
        }
    }
    false
}

/// Whether a patch is JSON and has a member, at any depth, whose name begins with `$`: in a strategic merge patch it says how to
/// merge (Kubernetes, "Update API Objects in Place Using kubectl patch").
pub fn has_directives(alloc: Global, patch: &[u8]) -> Result<bool, NoMemory>
    ensures { IfOk result (λ has. has ≡ spec.directives_in (value_of patch.now)) }
{
    match value_in(alloc, patch)? {
        Some(value) => Ok(has_directive(&value)),
        None => Ok(false),
    }
}
