// What the types of `serde_json` keep, for the laws to be called on.
ghost use Rattle.serde_json.specs.View.{view, members_view};
ghost use Rattle.json_patch.specs.Order.{Ascend, IsOrdered, AreOrdered};

use serde_json::{Map, Value};

// The names of a map ascend.
pub fn names_ascend(members: &Map<String, Value>)
    ensures { Ascend (members_view members.now.entries) }
{
    let _ = members.len();
}

#[cycle(order)]
fn members_are_ordered(members: &Map<String, Value>)
    ensures { AreOrdered (members_view members.now.entries) }
{
    for (_, member) in members.iter() {
        is_ordered(member);
    }
}

/// Every value is ordered as the laws ask: in each object the names ascend, so that none stands twice. A caller that wants
/// a law of a value calls this first; it looks at each member and changes nothing.
#[cycle(order)]
pub fn is_ordered(value: &Value)
    ensures { IsOrdered (view value.now) }
{
    match value {
        Value::Object(members) => {
            names_ascend(members);
            members_are_ordered(members);
        }
        _ => {}
    }
}
