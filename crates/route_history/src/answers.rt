//! What one table answers to each question of the trait `Routes`.
ghost use Rattle.std.specs.Prelude.{◌≡◌, ◌++◌, ◌∷◌, IfOk, is_some};
ghost use Rattle.std.specs.List.{flat_map};
ghost use Rattle.apiservice_rows.specs.Row.{Row};
ghost use Rattle.apiservice_table.specs.Services as services;
ghost use Rattle.apiservice_table.specs.Table as spec;
ghost use Rattle.discovery_merge.specs.Documents.{group_list_text, group_text};

use apiservice_rows::{Row, Rows};
use apiservice_table::RouteTable;
use front_base::{Bytes, NoMemory};
use std::alloc::{AllocError, Global};

/// A copy of the row of that group and version.
pub fn find(
    alloc: Global,
    table: &RouteTable,
    group: &str,
    version: &str,
) -> Result<Option<Row>, NoMemory>
    ensures { IfOk result (λ found. found ≡ spec.row group.now version.now table.now.rows) }
{
    match table.find(group, version) {
        Some(row) => Ok(Some(row.copy(alloc)?)),
        None => Ok(None),
    }
}

fn copy_rows(alloc: Global, rows: &[Row]) -> Result<Vec<Row>, NoMemory>
    ensures { IfOk result (λ copies. copies.items ≡ rows.now) }
{
    let mut copies = Vec::new(alloc);
    for row in rows {
        copies.push(row.copy(alloc)?)?;
    }
    Ok(copies)
}

/// A copy of the rows.
pub fn list(alloc: Global, table: &RouteTable) -> Result<Rows, NoMemory>
    ensures { IfOk result (λ rows. rows ≡ table.now.rows) }
{
    Ok(Rows::new(copy_rows(alloc, table.rows())?))
}

/// Whether a row of that group and version is there.
pub fn has(table: &RouteTable, group: &str, version: &str) -> bool
    ensures { result ≡ is_some (spec.row group.now version.now table.now.rows) }
{
    table.find(group, version).is_some()
}

/// A copy of the object of the APIService of that name.
pub fn object(alloc: Global, table: &RouteTable, name: &str) -> Result<Option<Bytes>, NoMemory>
    ensures { IfOk result (λ found. found ≡ services.object_named name.now table.now.rows) }
{
    match table.named(name) {
        Some(row) => Ok(Some(row.object.copy(alloc)?)),
        None => Ok(None),
    }
}

/// A copy of the row of the APIService of that name.
pub fn named(alloc: Global, table: &RouteTable, name: &str) -> Result<Option<Row>, NoMemory>
    ensures { IfOk result (λ found. found ≡ spec.row_named name.now table.now.rows) }
{
    match table.named(name) {
        Some(row) => Ok(Some(row.copy(alloc)?)),
        None => Ok(None),
    }
}

// The objects of rows, with a comma before each.
fn push_more(out: &mut Vec<u8>, rows: &[Row]) -> Result<(), AllocError>
    ensures { IfOk result (λ _.
        out.new.items ≡ out.old.items ++ flat_map (λ (row : Row). 44 ∷ row.object) rows.now) }
{
    for row in rows {
        out.push(b',')?;
        out.extend_from_slice(row.object.as_slice())?;
    }
    Ok(())
}

fn push_objects(out: &mut Vec<u8>, rows: &[Row]) -> Result<(), AllocError>
    ensures { IfOk result (λ _. out.new.items ≡ out.old.items ++ services.objects rows.now) }
{
    let Some((first, others)) = rows.split_first() else {
        return Ok(());
    };
    out.extend_from_slice(first.object.as_slice())?;
    push_more(out, others)
}

/// The `APIServiceList` of all rows.
#[tactic(auto, unfolding(apiservice_table::specs::Services::service_list_text))]
pub fn service_list(alloc: Global, table: &RouteTable) -> Result<Bytes, NoMemory>
    ensures { IfOk result (λ text. text ≡ services.service_list_text table.now.rows) }
{
    let head =
        b"{\"kind\":\"APIServiceList\",\"apiVersion\":\"apiregistration.k8s.io/v1\",\"metadata\":{},\"items\":[";
    let mut text = head.to_vec(alloc)?;
    push_objects(&mut text, table.rows())?;
    text.extend_from_slice(b"]}")?;
    Ok(Bytes::new(text))
}

/// A copy of the `APIGroupList`.
pub fn group_list(alloc: Global, table: &RouteTable) -> Result<Bytes, NoMemory>
    ensures { IfOk result (λ text. text ≡ group_list_text table.now.rows) }
{
    Ok(Bytes::new(table.group_list().to_vec(alloc)?))
}

/// A copy of the `APIGroup` of that name, where a row has the group.
pub fn group(alloc: Global, table: &RouteTable, name: &str) -> Result<Option<Bytes>, NoMemory>
    ensures { IfOk result (λ found. found ≡ group_text name.now table.now.rows) }
{
    match table.group(name) {
        Some(text) => Ok(Some(Bytes::new(text.to_vec(alloc)?))),
        None => Ok(None),
    }
}
