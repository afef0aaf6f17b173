// The members of a value that its type doesn't have.
ghost use Rattle.std.specs.Prelude.{◌≡◌, ◌++◌, OnOk};
ghost use Rattle.serde_json.specs.View.{view, items_view, members_view};
ghost use Rattle.warned_files.specs.Unread as spec;

use crate::kind::{Kind, Member};
use crate::places::{item_place, member_place};
use front_base::{NoMemory, Text};
use serde_json::{Map, Value};
use std::alloc::Global;

/// Adds the places of a value, or of the values of a list, that has this type and stands at this place.
#[cycle(walk)]
pub fn walk(
    alloc: Global,
    kind: Kind,
    at: &Text,
    value: &Value,
    found: &mut Vec<Text>,
) -> Result<(), NoMemory>
    ensures { OnOk result (found.new.items ≡ found.old.items ++ spec.unread kind at.now (view value.now)) }
{
    match value {
        Value::Array(items) => walk_items(alloc, kind, at, items, found),
        Value::Object(members) => walk_members(alloc, kind, at, members, found),
        _ => Ok(()),
    }
}

#[cycle(walk)]
fn walk_items(
    alloc: Global,
    kind: Kind,
    at: &Text,
    items: &Vec<Value>,
    found: &mut Vec<Text>,
) -> Result<(), NoMemory>
    ensures { OnOk result (found.new.items ≡ found.old.items ++ spec.items_unread kind at.now 0 (items_view items.now.items)) }
{
    for (i, item) in items.iter().enumerate() {
        let place = item_place(alloc, at, i)?;
        walk(alloc, kind, &place, item, found)?;
    }
    Ok(())
}

#[cycle(walk)]
fn walk_members(
    alloc: Global,
    kind: Kind,
    at: &Text,
    members: &Map<String, Value>,
    found: &mut Vec<Text>,
) -> Result<(), NoMemory>
    ensures { OnOk result (found.new.items ≡ found.old.items ++ spec.members_unread kind at.now (members_view members.now.entries)) }
{
    for (name, member) in members.iter() {
        match kind.member(name.as_str()) {
            Member::Leaf => {}
            Member::Unknown => found.push(member_place(alloc, at, name.as_str())?)?,
            Member::Part(part) => {
                let place = member_place(alloc, at, name.as_str())?;
                walk(alloc, part, &place, member, found)?;
            }
        }
    }
    Ok(())
}
