ghost use Rattle.std.specs.Prelude.{◌≡◌, if◌then◌else◌, is_some, None, Some, IfOk, IfErr, OnOk, option_map};
ghost use Rattle.apiservice_table.specs.Changes.{changed, left_by, patched_in, refusal, IsDue, IsPlain};
ghost use Rattle.apiservice_table.specs.Table as table;
ghost use Rattle.apiservice_table.specs.declared.change.Change.TheVariants as asked;
ghost use Rattle.apiservice_table.specs.declared.change.ChangeFault.TheVariants as fault;

use apiservice_rows::{MOST_ROWS, Row};
use apiservice_table::{Change, ChangeFault, a_patch_leaves_its_object};
use front_base::{Bytes, NoMemory, Text};
use service_patches::patched_row;
use std::alloc::Global;

// The row of that name, in whatever order the rows are.
fn row_named<'a>(rows: &'a [Row], name: &str) -> Option<&'a Row>
    ensures { option_map (λ row. row.now) result ≡ table.row_named name.now rows.now }
{
    for row in rows {
        if row.name.as_str() == name {
            return Some(row);
        }
    }
    None
}

fn holds(rows: &[Row], name: &str) -> bool
    ensures { result ≡ is_some (table.row_named name.now rows.now) }
{
    row_named(rows, name).is_some()
}

// Missing, unless a row of that name is there.
fn missing(rows: &[Row], name: &str) -> Option<ChangeFault>
    ensures { result ≡ (if is_some (table.row_named name.now rows.now) then None else Some fault.Missing) }
{
    if holds(rows, name) {
        None
    } else {
        Some(ChangeFault::Missing)
    }
}

fn unfit(rows: &[Row], row: &Row) -> Option<ChangeFault>
    ensures { result ≡ refusal rows.now (asked.Create row.now) }
{
    if holds(rows, row.name.as_str()) {
        Some(ChangeFault::Exists)
    } else if rows.len() < MOST_ROWS {
        None
    } else {
        Some(ChangeFault::Full)
    }
}

// Why rows don't take a change that is no patch, if they don't.
fn refusal_of(rows: &[Row], change: &Change) -> Option<ChangeFault>
    requires { IsPlain change.now }
    ensures { result ≡ refusal rows.now change.now }
{
    match change {
        Change::Create(row) => unfit(rows, row),
        Change::Replace(row) => missing(rows, row.name.as_str()),
        Change::Delete(name) => missing(rows, name.as_str()),
        Change::Patch { .. } => unreachable!(),
    }
}

// Whether rows take a change that is no patch, which leaves no object that its caller doesn't know.
fn try_plain(rows: &[Row], change: &Change) -> Result<Option<Bytes>, ChangeFault>
    requires { IsPlain change.now }
    ensures left { IfOk result (λ left. left ≡ left_by change.now (changed rows.now change.now)) }
    ensures due { OnOk result (refusal rows.now change.now ≡ None) }
    ensures refused { IfErr result (λ e. IsDue e (refusal rows.now change.now)) }
{
    match refusal_of(rows, change) {
        Some(fault) => Err(fault),
        None => Ok(None),
    }
}

// The row that a patch would make, or why it makes none.
#[tactic(auto, using(crate::proofs::TrialLemmas::made_is, crate::proofs::TrialLemmas::missing_is, crate::proofs::TrialLemmas::refused_is))]
fn patched(alloc: Global, rows: &[Row], name: &Text, patch: &Bytes) -> Result<Row, ChangeFault>
    ensures made { IfOk result (λ row. patched_in name.now patch.now rows.now ≡ Some row) }
    ensures refused { IfErr result (λ e. IsDue e (refusal rows.now (asked.Patch name.now patch.now))) }
{
    let Some(own) = row_named(rows, name.as_str()) else {
        return Err(ChangeFault::Missing);
    };
    match patched_row(
        alloc,
        name.as_str(),
        own.object.as_slice(),
        patch.as_slice(),
    ) {
        Ok(Some(row)) => Ok(row),
        Ok(None) => Err(ChangeFault::Invalid),
        Err(_) => Err(ChangeFault::NoMemory),
    }
}

fn object_of(alloc: Global, row: &Row) -> Result<Bytes, NoMemory>
    ensures { IfOk result (λ object. object ≡ row.now.object) }
{
    row.object.copy(alloc)
}

fn try_patch(
    alloc: Global,
    rows: &[Row],
    name: &Text,
    patch: &Bytes,
) -> Result<Option<Bytes>, ChangeFault>
    ensures left { IfOk result (λ left.
        left ≡ left_by (asked.Patch name.now patch.now) (changed rows.now (asked.Patch name.now patch.now))) }
    ensures due { OnOk result (refusal rows.now (asked.Patch name.now patch.now) ≡ None) }
    ensures refused { IfErr result (λ e. IsDue e (refusal rows.now (asked.Patch name.now patch.now))) }
{
    a_patch_leaves_its_object();
    let row = patched(alloc, rows, name, patch)?;
    match object_of(alloc, &row) {
        Ok(object) => Ok(Some(object)),
        Err(_) => Err(ChangeFault::NoMemory),
    }
}

/// The object that a change would leave where it is a patch, or why rows don't take it. It makes none. The rows may stand in any
/// order.
pub fn try_change(
    alloc: Global,
    rows: &[Row],
    change: &Change,
) -> Result<Option<Bytes>, ChangeFault>
    ensures left { IfOk result (λ left. left ≡ left_by change.now (changed rows.now change.now)) }
    ensures due { OnOk result (refusal rows.now change.now ≡ None) }
    ensures refused { IfErr result (λ e. IsDue e (refusal rows.now change.now)) }
{
    match change {
        Change::Create(_) => try_plain(rows, change),
        Change::Replace(_) => try_plain(rows, change),
        Change::Delete(_) => try_plain(rows, change),
        Change::Patch { name, patch } => try_patch(alloc, rows, name, patch),
    }
}
