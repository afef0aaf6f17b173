ghost use Rattle.std.specs.Prelude.{◌≡◌, option_map};
ghost use Rattle.serde_json.specs.View.{view, items_view};
ghost use Rattle.apiservice_rows.specs.Fault.{Gives};
ghost use Rattle.apiservice_rows.specs.RowList as spec;

use crate::fault::{RowFault, bad_field, repeated};
use crate::object::row_of;
use crate::row::Row;
use json_value::{is_text, present, read_value};
use serde_json::Value;
use std::alloc::Global;
use std::collections::BTreeSet;
use std::marker::Model;

/// The most rows that a table holds.
pub const MOST_ROWS: usize = 1024;

/// Rows in order, which contracts see as a list.
#[derive(Debug, Drop)]
pub struct Rows(Vec<Row>);

impl Model for Rows {
    ghost use Rattle.std.specs.Prelude.{List};
    ghost use Rattle.apiservice_rows.specs.Row as seen;

    ghost Value = { List seen.Row };

    ghost view = { λ r. r.0.items };
}

impl Rows {
    pub fn new(rows: Vec<Row>) -> Rows
        ensures { result ≡ rows.items }
    {
        Rows(rows)
    }

    pub fn as_slice(&self) -> &[Row]
        ensures { result.now ≡ self.now }
    {
        self.0.as_slice()
    }

    pub fn into_vec(self) -> Vec<Row>
        ensures { result.items ≡ self }
    {
        let Rows(rows) = self;
        rows
    }
}

// Whether a value is a list by its kind.
fn is_list(value: &Value) -> bool
    ensures { result ≡ spec.is_list (view value.now) }
{
    is_text("APIServiceList", present(value, "kind")) || is_text("List", present(value, "kind"))
}

fn item_rows(alloc: Global, items: &Vec<Value>) -> Result<Vec<Row>, RowFault>
    ensures { Gives (λ v. v.items) result (spec.item_rows 0 (items_view items.now.items)) }
{
    let mut rows = Vec::new(alloc);
    for (place, item) in items.iter().enumerate() {
        rows.push(row_of(alloc, Some(place), item)?)?;
    }
    Ok(rows)
}

// The rows of the items, where a member holds them.
fn items_in(alloc: Global, found: Option<&Value>) -> Result<Vec<Row>, RowFault>
    ensures { Gives (λ v. v.items) result (spec.items_in (option_map (λ v. view v.now) found.entry)) }
{
    match found {
        Some(Value::Array(items)) => item_rows(alloc, items),
        _ => Err(bad_field(alloc, None, "items")),
    }
}

// Whether no name comes twice, looked up in a tree.
fn check_distinct(alloc: Global, rows: &[Row]) -> Result<(), RowFault>
    ensures { Gives (λ u. u) result (spec.distinct (spec.names_of rows.now)) }
{
    let mut names: BTreeSet<&str> = BTreeSet::new(alloc);
    for (place, row) in rows.iter().enumerate() {
        if !names.insert(row.name.as_str())? {
            return Err(repeated(alloc, place, row.name.as_str()));
        }
    }
    Ok(())
}

#[tactic(auto, unfolding(crate::specs::RowList::few))]
fn few(rows: Vec<Row>) -> Result<Rows, RowFault>
    ensures { Gives (λ r. r) result (spec.few rows.items) }
{
    if rows.len() > MOST_ROWS {
        return Err(RowFault::Full);
    }
    Ok(Rows::new(rows))
}

#[tactic(auto, unfolding(crate::specs::RowList::list_rows))]
fn list_rows(alloc: Global, value: &Value) -> Result<Rows, RowFault>
    ensures { Gives (λ r. r) result (spec.list_rows (view value.now)) }
{
    let rows = items_in(alloc, present(value, "items"))?;
    check_distinct(alloc, rows.as_slice())?;
    few(rows)
}

#[tactic(auto, unfolding(crate::specs::RowList::one_row))]
fn one_row(alloc: Global, value: &Value) -> Result<Rows, RowFault>
    ensures { Gives (λ r. r) result (spec.one_row (view value.now)) }
{
    let row = row_of(alloc, None, value)?;
    Ok(Rows::new(vec![in alloc; row]?))
}

/// The rows of a text in JSON: of one APIService object, or of an object of kind `APIServiceList` or `List` with a list
/// `items`, as `kubectl get apiservices -o json` prints one. The first fault otherwise.
#[tactic(auto, unfolding(crate::specs::RowList::read_rows))]
pub fn read_rows(alloc: Global, bytes: &[u8]) -> Result<Rows, RowFault>
    ensures { Gives (λ r. r) result (spec.read_rows bytes.now) }
{
    let value = read_value(alloc, bytes)?;
    if is_list(&value) {
        list_rows(alloc, &value)
    } else {
        one_row(alloc, &value)
    }
}
