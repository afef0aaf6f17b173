// Rows in order of names: what is found in them, and what a change makes of them.
ghost use Rattle.std.specs.Prelude.{◌≡◌, if◌then◌else◌, None, Some, IfOk, OnOk, OnErr, is_some, option_map};
ghost use Rattle.apiservice_table.specs.Changes.{changed, refusal, IsNamed, IsPlain};
ghost use Rattle.apiservice_table.specs.Order.{AllNamed, IsInOrder};
ghost use Rattle.apiservice_table.specs.Table as spec;
ghost use Rattle.discovery_merge.specs.Lent.{lent_rows};

use crate::change::{Change, ChangeFault};
use crate::index::is_of;
use crate::place::{own_place_of, place_of};
use apiservice_rows::{MOST_ROWS, Row};
use front_base::NoMemory;
use std::alloc::Global;

// The row of that name, by binary search.
pub fn row_named<'a>(rows: &'a [Row], name: &str) -> Option<&'a Row>
    requires { IsInOrder rows.now }
    ensures { option_map (λ row. row.now) result ≡ spec.row_named name.now rows.now }
{
    match place_of(rows, name) {
        Ok(at) => Some(&rows[at]),
        Err(_) => None,
    }
}

// The row of that group and version, by binary search among names.
pub fn find_by_name<'a>(rows: &'a [Row], group: &str, version: &str) -> Option<&'a Row>
    requires order { IsInOrder rows.now }
    requires named { AllNamed rows.now }
    ensures { option_map (λ row. row.now) result ≡ spec.row group.now version.now rows.now }
{
    match own_place_of(rows, group, version) {
        Ok(at) => {
            let row = &rows[at];
            if is_of(row, group, version) {
                Some(row)
            } else {
                None
            }
        }
        Err(_) => None,
    }
}

// Whether a row of that name is there.
fn holds(rows: &[Row], name: &str) -> bool
    requires { IsInOrder rows.now }
    ensures { result ≡ is_some (spec.row_named name.now rows.now) }
{
    place_of(rows, name).is_ok()
}

// Missing, unless a row of that name is there.
fn missing(rows: &[Row], name: &str) -> Option<ChangeFault>
    requires { IsInOrder rows.now }
    ensures { result ≡ (if is_some (spec.row_named name.now rows.now) then None else Some ChangeFault.Missing) }
{
    if holds(rows, name) {
        None
    } else {
        Some(ChangeFault::Missing)
    }
}

// Why rows don't take a new row, if they don't.
fn unfit(rows: &[Row], row: &Row) -> Option<ChangeFault>
    requires { IsInOrder rows.now }
    ensures { result ≡ refusal rows.now (Change.Create row.now) }
{
    if holds(rows, row.name.as_str()) {
        Some(ChangeFault::Exists)
    } else if rows.len() < MOST_ROWS {
        None
    } else {
        Some(ChangeFault::Full)
    }
}

// Why rows don't take a change that is no patch, if they don't.
pub fn refusal_of(rows: &[Row], change: &Change) -> Option<ChangeFault>
    requires order { IsInOrder rows.now }
    requires plain { IsPlain change.now }
    ensures { result ≡ refusal rows.now change.now }
{
    match change {
        Change::Create(row) => unfit(rows, row),
        Change::Replace(row) => missing(rows, row.name.as_str()),
        Change::Delete(name) => missing(rows, name.as_str()),
        Change::Patch { .. } => unreachable!(),
    }
}

// The row of a change that puts one in tells its name.
pub fn tells_names(change: &Change)
    ensures { IsNamed change.now }
{
    match change {
        Change::Create(row) => row.tells_its_name(),
        Change::Replace(row) => row.tells_its_name(),
        Change::Delete(_) => (),
        Change::Patch { .. } => (),
    }
}

// Puts a row into its place by its name, over a row of that name.
pub fn put(rows: &mut Vec<Row>, row: Row) -> Result<(), NoMemory>
    requires { IsInOrder rows.old.items }
    ensures done { OnOk result (rows.new.items ≡ spec.with_row row rows.old.items) }
    ensures refused { OnErr result (rows.new.items ≡ rows.old.items) }
{
    match place_of(rows.as_slice(), row.name.as_str()) {
        Ok(at) => {
            rows[at] = row;
            Ok(())
        }
        Err(at) => {
            rows.insert(at, row)?;
            Ok(())
        }
    }
}

// Takes out the row of that name, if it is there.
fn take_out(rows: &mut Vec<Row>, name: &str) -> Option<Row>
    requires { IsInOrder rows.old.items }
    ensures { rows.new.items ≡ spec.without_row name.now rows.old.items }
{
    match place_of(rows.as_slice(), name) {
        Ok(at) => Some(rows.remove(at)),
        Err(_) => None,
    }
}

// Makes a change that rows take and that is no patch.
pub fn change_rows(rows: &mut Vec<Row>, change: Change) -> Result<(), NoMemory>
    requires order { IsInOrder rows.old.items }
    requires plain { IsPlain change }
    ensures done { OnOk result (rows.new.items ≡ changed rows.old.items change) }
    ensures kept { OnErr result (rows.new.items ≡ rows.old.items) }
{
    match change {
        Change::Create(row) => put(rows, row),
        Change::Replace(row) => put(rows, row),
        Change::Delete(name) => {
            drop(take_out(rows, name.as_str()));
            Ok(())
        }
        Change::Patch { .. } => unreachable!(),
    }
}

// The rows, borrowed one by one.
pub fn lent(alloc: Global, rows: &[Row]) -> Result<Vec<&Row>, NoMemory>
    ensures { IfOk result (λ lent. lent_rows lent.items ≡ rows.now) }
{
    let lent = rows.iter().collect(alloc)?;
    Ok(lent)
}

// The rows with that one, borrowed.
fn lent_with<'a>(alloc: Global, rows: &'a [Row], row: &'a Row) -> Result<Vec<&'a Row>, NoMemory>
    requires { IsInOrder rows.now }
    ensures { IfOk result (λ lent. lent_rows lent.items ≡ spec.with_row row.now rows.now) }
{
    let mut lent = lent(alloc, rows)?;
    match place_of(rows, row.name.as_str()) {
        Ok(at) => {
            lent[at] = row;
            Ok(lent)
        }
        Err(at) => {
            lent.insert(at, row)?;
            Ok(lent)
        }
    }
}

// The rows without that of a name, borrowed.
fn lent_without<'a>(alloc: Global, rows: &'a [Row], name: &str) -> Result<Vec<&'a Row>, NoMemory>
    requires { IsInOrder rows.now }
    ensures { IfOk result (λ lent. lent_rows lent.items ≡ spec.without_row name.now rows.now) }
{
    let mut lent = lent(alloc, rows)?;
    match place_of(rows, name) {
        Ok(at) => {
            lent.remove(at);
            Ok(lent)
        }
        Err(_) => Ok(lent),
    }
}

// The rows as a change that is no patch would make them, borrowed.
pub fn lent_after<'a>(
    alloc: Global,
    rows: &'a [Row],
    change: &'a Change,
) -> Result<Vec<&'a Row>, NoMemory>
    requires order { IsInOrder rows.now }
    requires plain { IsPlain change.now }
    ensures { IfOk result (λ lent. lent_rows lent.items ≡ changed rows.now change.now) }
{
    match change {
        Change::Create(row) => lent_with(alloc, rows, row),
        Change::Replace(row) => lent_with(alloc, rows, row),
        Change::Delete(name) => lent_without(alloc, rows, name.as_str()),
        Change::Patch { .. } => unreachable!(),
    }
}
