// The group versions of a document, in order.
ghost use Rattle.std.specs.Prelude.{◌≡◌, ◌++◌, [], ◌∷◌, IfOk, OnOk};
ghost use Rattle.resources_command.specs.Order as spec;

use apiservice_table::RouteTable;
use discovery_merge::{Group, sorted_groups};
use front_base::{NoMemory, Text};
use std::alloc::Global;

/// A version of a group.
#[derive(Debug, Drop)]
pub struct GroupVersion {
    /// Empty for the core group.
    pub group: Text,
    pub version: Text,
}

fn push_one(
    alloc: Global,
    order: &mut Vec<GroupVersion>,
    group: &str,
    version: &str,
) -> Result<(), NoMemory>
    ensures { OnOk result (order.new.items ≡ order.old.items ++ spec.one_of group.now version.now ∷ []) }
{
    let group = Text::copy_of(alloc, group)?;
    let version = Text::copy_of(alloc, version)?;
    order.push(GroupVersion { group, version })?;
    Ok(())
}

fn push_versions(
    alloc: Global,
    order: &mut Vec<GroupVersion>,
    group: &Group,
) -> Result<(), NoMemory>
    ensures { OnOk result (order.new.items ≡ order.old.items ++ spec.versions_of group.now) }
{
    for version in group.versions.as_slice() {
        push_one(alloc, order, group.name.as_str(), version.as_str())?;
    }
    Ok(())
}

fn push_groups(
    alloc: Global,
    order: &mut Vec<GroupVersion>,
    groups: &[Group],
) -> Result<(), NoMemory>
    ensures { OnOk result (order.new.items ≡ order.old.items ++ spec.all_versions groups.now) }
{
    for group in groups {
        push_versions(alloc, order, group)?;
    }
    Ok(())
}

/// The group versions of a table: `v1` of the core group, where a row has it, and then the others in the order of discovery. Those of
/// unavailable rows are among them.
#[tactic(auto, unfolding(crate::specs::Order::order_of))]
pub fn order(alloc: Global, table: &RouteTable) -> Result<Vec<GroupVersion>, NoMemory>
    ensures { IfOk result (λ order. order.items ≡ spec.order_of table.now.rows) }
{
    let mut order = Vec::new(alloc);
    if table.find("", "v1").is_some() {
        push_one(alloc, &mut order, "", "v1")?;
    }
    let groups = sorted_groups(alloc, table.rows())?;
    push_groups(alloc, &mut order, groups.as_slice())?;
    Ok(order)
}
