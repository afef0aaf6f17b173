// What a patch makes of an object.
ghost use Rattle.std.specs.Prelude.{◌≡◌, Some, IfOk, option_map};
ghost use Rattle.json_value.specs.Read.{value_of};
ghost use Rattle.serde_json.specs.View.{view};
ghost use Rattle.service_patches.specs.Patches as spec;

use apiservice_rows::{Row, RowFault, read_row};
use front_base::{Bytes, NoMemory};
use http_edge::MOST_BODY_BYTES;
use json_patch::merge_patch;
use json_value::{ValueError, has_float, read_value};
use serde_json::Value;
use std::alloc::Global;

// The value of a text, if it is JSON.
fn value_in(alloc: Global, text: &[u8]) -> Result<Option<Value>, NoMemory>
    ensures { IfOk result (λ value. option_map view value ≡ value_of text.now) }
{
    match read_value(alloc, text) {
        Ok(value) => Ok(Some(value)),
        Err(ValueError::NotJson) => Ok(None),
        Err(ValueError::NoMemory) => Err(NoMemory),
    }
}

// The text, if the body of a request may be as long.
fn bounded(text: Vec<u8>) -> Option<Bytes>
    ensures { result ≡ spec.bounded text.items }
{
    if text.len() as u64 <= MOST_BODY_BYTES {
        return Some(Bytes::new(text));
    }
    drop(text);
    None
}

// The text of a value, if no number in it has a fraction, and it isn't too long.
fn text_of(alloc: Global, value: &Value) -> Result<Option<Bytes>, NoMemory>
    ensures { IfOk result (λ text. text ≡ spec.text_of (view value.now)) }
{
    if has_float(value) {
        return Ok(None);
    }
    let text = value.to_string(alloc)?;
    Ok(bounded(text.into_bytes()))
}

fn merged_values(alloc: Global, target: Value, patch: Value) -> Result<Option<Bytes>, NoMemory>
    ensures { IfOk result (λ text. text ≡ spec.merged_text (Some (view target)) (Some (view patch))) }
{
    let merged = merge_patch(alloc, target, patch)?;
    text_of(alloc, &merged)
}

// The text of what a patch makes of a value, where the patch is JSON.
fn merged_with(alloc: Global, target: Value, patch: &[u8]) -> Result<Option<Bytes>, NoMemory>
    ensures { IfOk result (λ text. text ≡ spec.merged_text (Some (view target)) (value_of patch.now)) }
{
    match value_in(alloc, patch) {
        Ok(Some(patch)) => merged_values(alloc, target, patch),
        Ok(None) => Ok(None),
        Err(fault) => Err(fault),
    }
}

fn merged_text(alloc: Global, object: &[u8], patch: &[u8]) -> Result<Option<Bytes>, NoMemory>
    ensures { IfOk result (λ text. text ≡ spec.merged_text (value_of object.now) (value_of patch.now)) }
{
    match value_in(alloc, object)? {
        Some(target) => merged_with(alloc, target, patch),
        None => Ok(None),
    }
}

fn row_in(alloc: Global, text: &[u8]) -> Result<Option<Row>, NoMemory>
    ensures { IfOk result (λ row. row ≡ spec.row_in text.now) }
{
    match read_row(alloc, text) {
        Ok(row) => Ok(Some(row)),
        Err(RowFault::NoMemory) => Err(NoMemory),
        Err(_) => Ok(None),
    }
}

// The row, if it has that name.
fn named(name: &str, row: Row) -> Option<Row>
    ensures { result ≡ spec.named name.now (Some row) }
{
    if row.name.as_str() == name {
        return Some(row);
    }
    drop(row);
    None
}

fn row_named(alloc: Global, name: &str, text: &[u8]) -> Result<Option<Row>, NoMemory>
    ensures { IfOk result (λ row. row ≡ spec.row_by name.now (Some text.now)) }
{
    match row_in(alloc, text)? {
        Some(row) => Ok(named(name, row)),
        None => Ok(None),
    }
}

/// The row of an APIService after a merge patch: that of its object after the patch, where the patch is JSON, a `PUT` of that
/// object would be read, and it still has that name. An object of more than `MOST_BODY_BYTES` couldn't be put.
pub fn patched_row(
    alloc: Global,
    name: &str,
    object: &[u8],
    patch: &[u8],
) -> Result<Option<Row>, NoMemory>
    ensures { IfOk result (λ row. row ≡ spec.patched_row name.now object.now patch.now) }
{
    match merged_text(alloc, object, patch)? {
        Some(text) => row_named(alloc, name, text.as_slice()),
        None => Ok(None),
    }
}
