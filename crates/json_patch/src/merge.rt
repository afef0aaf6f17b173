ghost use Rattle.std.specs.Prelude.{◌≡◌, string_bytes, IfOk, OnOk};
ghost use Rattle.serde_json.specs.View.{view, members_view};
ghost use Rattle.json_patch.specs.Merge.{members_in, value_at, changed, merged, merged_members};

use crate::order::names_ascend;
use serde_json::{Map, Value};
use std::alloc::{AllocError, Global};

// The members of an object, and none of what is no object.
fn members_in(alloc: Global, target: Value) -> Map<String, Value>
    ensures { members_view result.entries ≡ members_in (view target) }
{
    match target {
        Value::Object(members) => members,
        _ => Map::new(alloc),
    }
}

#[cycle(merge)]
fn merge_member(
    alloc: Global,
    members: &mut Map<String, Value>,
    name: String,
    change: Value,
) -> Result<(), AllocError>
    ensures { OnOk result (members_view members.new.entries
        ≡ changed (members_view members.old.entries) (string_bytes name) (view change)
        (merged (value_at (string_bytes name) (members_view members.old.entries)) (view change))) }
{
    names_ascend(members);
    let old = members.remove(name.as_str());
    if change.is_null() {
        return Ok(());
    }
    let merged = merge_patch(alloc, old.unwrap_or(Value::Null), change)?;
    drop(members.insert(name, merged)?);
    Ok(())
}

#[cycle(merge)]
fn merge_members(
    alloc: Global,
    target: Map<String, Value>,
    changes: Map<String, Value>,
) -> Result<Map<String, Value>, AllocError>
    ensures { IfOk result (λ m. members_view m.entries
        ≡ merged_members (members_view target.entries) (members_view changes.entries)) }
{
    let mut members = target;
    for (name, change) in changes {
        merge_member(alloc, &mut members, name, change)?;
    }
    Ok(members)
}

/// The target after the patch (RFC 7396, section 2): a patch that is no object takes its place. Otherwise each member of the
/// patch is merged into the target's member of that name, and null removes it; a target that is no object counts as an empty
/// one. The target is consumed, also where memory runs out.
#[cycle(merge)]
pub fn merge_patch(alloc: Global, target: Value, patch: Value) -> Result<Value, AllocError>
    ensures { IfOk result (λ v. view v ≡ merged (view target) (view patch)) }
{
    match patch {
        Value::Object(changes) => {
            Ok(Value::Object(merge_members(alloc, members_in(alloc, target), changes)?))
        }
        patch => Ok(patch),
    }
}
