// Groups while their rows are borrowed.
ghost use Rattle.std.specs.Prelude.{◌≡◌, ℕ, List, [], ◌∷◌, ◌++◌, map, filter, bytes_eq, if◌then◌else◌};
ghost use Rattle.std.specs.Prelude.{Some, None, option_map, unwrap_or, IfOk, OnOk};
ghost use Rattle.discovery_merge.specs.Groups as spec;
ghost use Rattle.discovery_merge.specs.Lent.{lent_rows, lent_versions, lent_view, rows_for, told, unless_empty};

use crate::groups::{Group, Groups};
use crate::order::{in_group_order, rows_of, sort_by_preference};
use apiservice_rows::Row;
use front_base::{NoMemory, Text, Texts};
use std::alloc::{AllocError, Global};
use std::collections::BTreeMap;

// The rows, borrowed one by one.
fn lent(alloc: Global, rows: &[Row]) -> Result<Vec<&Row>, AllocError>
    ensures { IfOk result (λ lent. lent_rows lent.items ≡ rows.now) }
{
    rows.iter().collect(alloc)
}

// A group by its rows, of which there is one at least. The one to prefer comes first.
#[derive(Drop)]
pub struct LentGroup<'a> {
    pub name: &'a str,
    pub rows: Vec<&'a Row>,
}

// Puts a row behind those of its group.
fn add_row<'a>(
    alloc: Global,
    by_group: &mut BTreeMap<&'a str, Vec<&'a Row>>,
    row: &'a Row,
) -> Result<(), NoMemory>
    ensures { OnOk result ((name : List ℕ) → rows_for name by_group.new
        ≡ (if spec.is_of name row.now then Some (unwrap_or (rows_for name by_group.old) [] ++ row.now ∷ [])
        else rows_for name by_group.old)) }
{
    let name = row.group.as_str();
    if let Some(rows) = by_group.get_mut(name) {
        rows.push(row)?;
        return Ok(());
    }
    by_group.insert(name, vec![in alloc; row]?)?;
    Ok(())
}

// The rows of each group, in the order in which they come.
fn rows_by_group<'a>(
    alloc: Global,
    rows: &[&'a Row],
) -> Result<BTreeMap<&'a str, Vec<&'a Row>>, NoMemory>
    ensures { IfOk result (λ by_group. (name : List ℕ)
        → rows_for name by_group ≡ unless_empty (filter (spec.is_of name) (lent_rows rows.now))) }
{
    let mut by_group: BTreeMap<&str, Vec<&Row>> = BTreeMap::new(alloc);
    for row in rows {
        add_row(alloc, &mut by_group, row)?;
    }
    Ok(by_group)
}

// The group of that name, unless it was taken before.
fn take_group<'a>(
    by_group: &mut BTreeMap<&'a str, Vec<&'a Row>>,
    name: &'a str,
) -> Result<Option<LentGroup<'a>>, NoMemory>
    ensures group { IfOk result (λ group.
        option_map lent_view group ≡ option_map (told name.now) (rows_for name.now by_group.old)) }
    ensures left { OnOk result ((other : List ℕ) → rows_for other by_group.new
        ≡ (if bytes_eq name.now other then None else rows_for other by_group.old)) }
{
    match by_group.remove(name) {
        Some(mut rows) => {
            sort_by_preference(&mut rows)?;
            Ok(Some(LentGroup { name, rows }))
        }
        None => Ok(None),
    }
}

// The groups in order.
pub fn lent_groups<'a>(alloc: Global, rows: &[&'a Row]) -> Result<Vec<LentGroup<'a>>, NoMemory>
    ensures { IfOk result (λ groups. map lent_view groups.items ≡ spec.sorted_groups (lent_rows rows.now)) }
{
    let mut by_group = rows_by_group(alloc, rows)?;
    let ordered = in_group_order(alloc, rows)?;
    let mut groups = Vec::new(alloc);
    for row in ordered.as_slice() {
        // The first row of a group takes it, so the others find none.
        if let Some(group) = take_group(&mut by_group, row.group.as_str())? {
            groups.push(group)?;
        }
    }
    Ok(groups)
}

// The groups of rows that aren't borrowed yet.
pub fn groups_in(alloc: Global, rows: &[Row]) -> Result<Vec<LentGroup<'_>>, NoMemory>
    ensures { IfOk result (λ groups. map lent_view groups.items ≡ spec.sorted_groups rows.now) }
{
    let lent = lent(alloc, rows)?;
    lent_groups(alloc, lent.as_slice())
}

// The rows of a group among rows that aren't borrowed yet.
pub fn rows_in<'a>(alloc: Global, rows: &'a [Row], name: &str) -> Result<Vec<&'a Row>, NoMemory>
    ensures { IfOk result (λ found. lent_rows found.items ≡ spec.rows_of name.now rows.now) }
{
    let lent = lent(alloc, rows)?;
    rows_of(alloc, lent.as_slice(), name)
}

fn copy_versions(alloc: Global, rows: &[&Row]) -> Result<Texts, NoMemory>
    ensures { IfOk result (λ versions. versions ≡ lent_versions rows.now) }
{
    let mut versions = Vec::new(alloc);
    for row in rows {
        versions.push(row.version.copy(alloc)?)?;
    }
    Ok(Texts::new(versions))
}

fn copy_group(alloc: Global, group: &LentGroup) -> Result<Group, NoMemory>
    ensures { IfOk result (λ copy. copy ≡ lent_view group.now) }
{
    Ok(Group {
        name: Text::copy_of(alloc, group.name)?,
        versions: copy_versions(alloc, group.rows.as_slice())?,
    })
}

/// The groups of rows, in order: a group stands where its first row stands by `groupPriorityMinimum`, the greatest
/// first, and then by the name of the object. Its versions are in order of `versionPriority`, the greatest first, and
/// then of `compare_versions`. Unavailable rows count, and the core group is left out.
pub fn sorted_groups(alloc: Global, rows: &[Row]) -> Result<Groups, NoMemory>
    ensures { IfOk result (λ groups. groups ≡ spec.sorted_groups rows.now) }
{
    let mut groups = Vec::new(alloc);
    for group in groups_in(alloc, rows)?.as_slice() {
        groups.push(copy_group(alloc, group)?)?;
    }
    Ok(Groups::new(groups))
}
