// Rows put in order.
ghost use Rattle.std.specs.Prelude.{◌≡◌, filter, OnOk, IfOk};
ghost use Rattle.discovery_merge.specs.Groups as spec;
ghost use Rattle.discovery_merge.specs.Lent.{lent_rows};
ghost use Rattle.discovery_merge.specs.Order.{group_order, preference_order, sorted};

use apiservice_rows::Row;
use front_base::{NoMemory, compare_versions, versions_are_ordered};
use std::alloc::{AllocError, Global};
use std::cmp::Ordering;

fn compare_groups(a: &Row, b: &Row) -> Ordering
    ensures { result ≡ group_order a.now b.now }
{
    match b.group_priority.cmp(&a.group_priority) {
        Ordering::Equal => a.name.as_str().cmp(b.name.as_str()),
        order => order,
    }
}

fn compare_preference(a: &Row, b: &Row) -> Ordering
    ensures { result ≡ preference_order a.now b.now }
{
    match b.version_priority.cmp(&a.version_priority) {
        Ordering::Equal => compare_versions(a.version.as_str(), b.version.as_str()),
        order => order,
    }
}

fn sort_by_group(rows: &mut Vec<&Row>) -> Result<(), NoMemory>
    ensures { OnOk result (lent_rows rows.new.items ≡ sorted group_order (lent_rows rows.old.items)) }
{
    rows.sort_by(|a, b| compare_groups(a, b))?;
    Ok(())
}

// Puts the row to prefer first.
pub fn sort_by_preference(rows: &mut Vec<&Row>) -> Result<(), NoMemory>
    ensures { OnOk result (lent_rows rows.new.items ≡ sorted preference_order (lent_rows rows.old.items)) }
{
    versions_are_ordered();
    rows.sort_by(|a, b| compare_preference(a, b))?;
    Ok(())
}

// The rows but those of the core group.
fn named<'a>(alloc: Global, rows: &[&'a Row]) -> Result<Vec<&'a Row>, AllocError>
    ensures { IfOk result (λ named. named.items ≡ filter (λ r. spec.is_named r.now) rows.now) }
{
    rows.iter()
        .copied()
        .filter(|row| !row.group.as_str().is_empty())
        .collect(alloc)
}

fn of_group<'a>(alloc: Global, rows: &[&'a Row], name: &str) -> Result<Vec<&'a Row>, AllocError>
    ensures { IfOk result (λ found. found.items ≡ filter (λ r. spec.is_of name.now r.now) rows.now) }
{
    rows.iter()
        .copied()
        .filter(|row| row.group.as_str() == name)
        .collect(alloc)
}

// The rows but those of the core group, in the order of groups.
pub fn in_group_order<'a>(alloc: Global, rows: &[&'a Row]) -> Result<Vec<&'a Row>, NoMemory>
    ensures { IfOk result (λ ordered. lent_rows ordered.items
        ≡ sorted group_order (filter spec.is_named (lent_rows rows.now))) }
{
    let mut ordered = named(alloc, rows)?;
    sort_by_group(&mut ordered)?;
    Ok(ordered)
}

// The rows of a group, the one to prefer first.
pub fn rows_of<'a>(alloc: Global, rows: &[&'a Row], name: &str) -> Result<Vec<&'a Row>, NoMemory>
    ensures { IfOk result (λ found. lent_rows found.items ≡ spec.rows_of name.now (lent_rows rows.now)) }
{
    let mut found = of_group(alloc, rows, name)?;
    sort_by_preference(&mut found)?;
    Ok(found)
}
