// The Table of rows.
ghost use Rattle.std.specs.Prelude.{◌≡◌, ◌++◌, ◌∷◌, IfOk};
ghost use Rattle.std.specs.List.{flat_map};
ghost use Rattle.serde_json.specs.View.{view};
ghost use Rattle.apiservice_rows.specs.Row.{Row};
ghost use Rattle.service_tables.specs.Tables as spec;

use crate::ages::age_cell;
use crate::include::IncludeObject;
use crate::objects::object_text;
use apiservice_columns::{available_cell, service_cell};
use apiservice_rows::Row;
use front_base::{Bytes, Moment, NoMemory};
use json_span::quote;
use json_value::{ValueError, read_value};
use serde_json::Value;
use std::alloc::{AllocError, Global};

fn two_cells(alloc: Global, first: &str, second: &str) -> Result<Vec<u8>, AllocError>
    ensures { IfOk result (λ text. text.items ≡ spec.two_cells first.now second.now) }
{
    let mut text = Vec::new(alloc);
    text.extend_from_slice(quote(alloc, first)?.as_slice())?;
    text.push(b',')?;
    text.extend_from_slice(quote(alloc, second)?.as_slice())?;
    Ok(text)
}

#[tactic(auto, unfolding(crate::specs::Tables::cells_text))]
fn cells_text(
    alloc: Global,
    name: &str,
    service: &str,
    available: &str,
    age: &str,
) -> Result<Vec<u8>, AllocError>
    ensures { IfOk result (λ text. text.items ≡ spec.cells_text name.now service.now available.now age.now) }
{
    let mut text = Vec::new(alloc);
    text.push(b'[')?;
    text.extend_from_slice(two_cells(alloc, name, service)?.as_slice())?;
    text.push(b',')?;
    text.extend_from_slice(two_cells(alloc, available, age)?.as_slice())?;
    text.push(b']')?;
    Ok(text)
}

#[tactic(auto, unfolding(crate::specs::Tables::parts_text))]
fn parts_text(alloc: Global, cells: &[u8], object: &str) -> Result<Vec<u8>, AllocError>
    ensures { IfOk result (λ text. text.items ≡ spec.parts_text cells.now object.now) }
{
    let mut text = Vec::new(alloc);
    text.extend_from_slice(b"{\"cells\":")?;
    text.extend_from_slice(cells)?;
    text.extend_from_slice(b",\"object\":")?;
    text.extend_from_slice(object.as_bytes())?;
    text.push(b'}')?;
    Ok(text)
}

// The value of an object's text, and null where it has none.
fn object_of(alloc: Global, row: &Row) -> Result<Value, NoMemory>
    ensures { IfOk result (λ value. view value ≡ spec.object_of row.now) }
{
    match read_value(alloc, row.object.as_slice()) {
        Ok(value) => Ok(value),
        Err(ValueError::NotJson) => Ok(Value::Null),
        Err(ValueError::NoMemory) => Err(NoMemory),
    }
}

fn cells_of(alloc: Global, row: &Row, object: &Value, now: Moment) -> Result<Vec<u8>, AllocError>
    ensures { IfOk result (λ text. text.items ≡ spec.cells_of now row.now (view object.now)) }
{
    let service = service_cell(alloc, &row.service)?;
    let available = available_cell(alloc, &row.service, object)?;
    let age = age_cell(alloc, object, now)?;
    cells_text(
        alloc,
        row.name.as_str(),
        service.as_str(),
        available.as_str(),
        age.as_str(),
    )
}

#[tactic(auto, unfolding(crate::specs::Tables::row_text))]
fn row_text(
    alloc: Global,
    row: &Row,
    include: IncludeObject,
    now: Moment,
) -> Result<Vec<u8>, NoMemory>
    ensures { IfOk result (λ text. text.items ≡ spec.row_text include now row.now) }
{
    let object = object_of(alloc, row)?;
    let cells = cells_of(alloc, row, &object, now)?;
    let text = object_text(alloc, include, object)?;
    Ok(parts_text(alloc, cells.as_slice(), text.as_str())?)
}

fn push_row(
    alloc: Global,
    out: &mut Vec<u8>,
    row: &Row,
    include: IncludeObject,
    now: Moment,
) -> Result<(), NoMemory>
    ensures { IfOk result (λ _. out.new.items ≡ out.old.items ++ spec.row_text include now row.now) }
{
    let text = row_text(alloc, row, include, now)?;
    out.extend_from_slice(text.as_slice())?;
    Ok(())
}

// The rows, with a comma before each.
fn push_more(
    alloc: Global,
    out: &mut Vec<u8>,
    rows: &[Row],
    include: IncludeObject,
    now: Moment,
) -> Result<(), NoMemory>
    ensures { IfOk result (λ _.
        out.new.items ≡ out.old.items ++ flat_map (λ (row : Row). 44 ∷ spec.row_text include now row) rows.now) }
{
    for row in rows {
        out.push(b',')?;
        push_row(alloc, out, row, include, now)?;
    }
    Ok(())
}

fn push_rows(
    alloc: Global,
    out: &mut Vec<u8>,
    rows: &[Row],
    include: IncludeObject,
    now: Moment,
) -> Result<(), NoMemory>
    ensures { IfOk result (λ _. out.new.items ≡ out.old.items ++ spec.rows_text include now rows.now) }
{
    let Some((first, others)) = rows.split_first() else {
        return Ok(());
    };
    push_row(alloc, out, first, include, now)?;
    push_more(alloc, out, others, include, now)
}

#[tactic(auto, unfolding(crate::specs::Tables::columns_text))]
fn columns_text(alloc: Global) -> Result<Vec<u8>, AllocError>
    ensures { IfOk result (λ text. text.items ≡ spec.columns_text) }
{
    let mut text = Vec::new(alloc);
    text.extend_from_slice(
        b"{\"name\":\"Name\",\"type\":\"string\",\"format\":\"name\",\"description\":\"The name of the APIService.\",\"priority\":0},",
    )?;
    text.extend_from_slice(
        b"{\"name\":\"Service\",\"type\":\"string\",\"format\":\"\",\"description\":\"The reference to the service that hosts this API endpoint.\",\"priority\":0},",
    )?;
    text.extend_from_slice(
        b"{\"name\":\"Available\",\"type\":\"string\",\"format\":\"\",\"description\":\"Whether this service is available.\",\"priority\":0},",
    )?;
    text.extend_from_slice(
        b"{\"name\":\"Age\",\"type\":\"string\",\"format\":\"\",\"description\":\"How long ago the APIService was created.\",\"priority\":0}",
    )?;
    Ok(text)
}

#[tactic(auto, unfolding(crate::specs::Tables::head_text))]
fn head_text(alloc: Global) -> Result<Vec<u8>, AllocError>
    ensures { IfOk result (λ text. text.items ≡ spec.head_text) }
{
    let mut text = Vec::new(alloc);
    text.extend_from_slice(
        b"{\"kind\":\"Table\",\"apiVersion\":\"meta.k8s.io/v1\",\"metadata\":{},\"columnDefinitions\":[",
    )?;
    text.extend_from_slice(columns_text(alloc)?.as_slice())?;
    text.extend_from_slice(b"],\"rows\":[")?;
    Ok(text)
}

/// The Table of these rows in their order, at that moment, as JSON. Each row carries of its object what `include` says; a whole object
/// has its kind and its version, also where its text has none.
#[tactic(auto, unfolding(crate::specs::Tables::table_text))]
pub fn service_table(
    alloc: Global,
    rows: &[Row],
    include: IncludeObject,
    now: Moment,
) -> Result<Bytes, NoMemory>
    ensures { IfOk result (λ text. text ≡ spec.table_text include now rows.now) }
{
    let mut text = head_text(alloc)?;
    push_rows(alloc, &mut text, rows, include, now)?;
    text.extend_from_slice(b"]}")?;
    Ok(Bytes::new(text))
}
