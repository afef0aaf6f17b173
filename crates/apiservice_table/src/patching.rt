// Patches of rows, worked out without making a change.
ghost use Rattle.std.specs.Prelude.{◌≡◌, None, Some, IfOk, IfErr, OnOk};
ghost use Rattle.apiservice_table.specs.Changes.{changed, left_by, patched_in, refusal, IsDue, IsPlain};
ghost use Rattle.apiservice_table.specs.Order.{IsInOrder};
ghost use Rattle.apiservice_table.specs.declared.change.Change.TheVariants as asked;

use crate::change::{Change, ChangeFault};
use crate::rows::{refusal_of, row_named};
use apiservice_rows::Row;
use front_base::{Bytes, NoMemory, Text};
use service_patches::{a_patch_keeps_the_name, patched_row};
use std::alloc::Global;

// The row that a patch makes of the one of that name, or why it makes none.
#[tactic(auto, using(crate::proofs::PatchLemmas::made_is, crate::proofs::PatchLemmas::missing_is, crate::proofs::PatchLemmas::refused_is))]
pub fn patched(alloc: Global, rows: &[Row], name: &Text, patch: &Bytes) -> Result<Row, ChangeFault>
    requires { IsInOrder rows.now }
    ensures made { IfOk result (λ row. patched_in name.now patch.now rows.now ≡ Some row) }
    ensures own { IfOk result (λ row. row.name ≡ name.now) }
    ensures refused { IfErr result (λ e. IsDue e (refusal rows.now (asked.Patch name.now patch.now))) }
{
    a_patch_keeps_the_name();
    let Some(own) = row_named(rows, name.as_str()) else {
        return Err(ChangeFault::Missing);
    };
    match patched_row(
        alloc,
        name.as_str(),
        own.object.as_slice(),
        patch.as_slice(),
    ) {
        Ok(Some(row)) => Ok(row),
        Ok(None) => Err(ChangeFault::Invalid),
        Err(_) => Err(ChangeFault::NoMemory),
    }
}

fn object_of(alloc: Global, row: &Row) -> Result<Bytes, NoMemory>
    ensures { IfOk result (λ object. object ≡ row.now.object) }
{
    row.object.copy(alloc)
}

// The object that a patch would leave.
#[tactic(auto, using(crate::proofs::PatchLemmas::taken_so, crate::proofs::PatchLemmas::left_so))]
fn try_patch(
    alloc: Global,
    rows: &[Row],
    name: &Text,
    patch: &Bytes,
) -> Result<Option<Bytes>, ChangeFault>
    requires { IsInOrder rows.now }
    ensures left { IfOk result (λ left.
        left ≡ left_by (asked.Patch name.now patch.now) (changed rows.now (asked.Patch name.now patch.now))) }
    ensures due { OnOk result (refusal rows.now (asked.Patch name.now patch.now) ≡ None) }
    ensures refused { IfErr result (λ e. IsDue e (refusal rows.now (asked.Patch name.now patch.now))) }
{
    let row = patched(alloc, rows, name, patch)?;
    match object_of(alloc, &row) {
        Ok(object) => Ok(Some(object)),
        Err(_) => Err(ChangeFault::NoMemory),
    }
}

// Whether rows take a change that is no patch, which leaves no object that its caller doesn't know.
fn try_plain(rows: &[Row], change: &Change) -> Result<Option<Bytes>, ChangeFault>
    requires order { IsInOrder rows.now }
    requires plain { IsPlain change.now }
    ensures left { IfOk result (λ left. left ≡ left_by change.now (changed rows.now change.now)) }
    ensures due { OnOk result (refusal rows.now change.now ≡ None) }
    ensures refused { IfErr result (λ e. IsDue e (refusal rows.now change.now)) }
{
    match refusal_of(rows, change) {
        Some(fault) => Err(fault),
        None => Ok(None),
    }
}

// The object that a change would leave, or why rows don't take it.
pub fn try_change(
    alloc: Global,
    rows: &[Row],
    change: &Change,
) -> Result<Option<Bytes>, ChangeFault>
    requires { IsInOrder rows.now }
    ensures left { IfOk result (λ left. left ≡ left_by change.now (changed rows.now change.now)) }
    ensures due { OnOk result (refusal rows.now change.now ≡ None) }
    ensures refused { IfErr result (λ e. IsDue e (refusal rows.now change.now)) }
{
    match change {
        Change::Create(_) => try_plain(rows, change),
        Change::Replace(_) => try_plain(rows, change),
        Change::Delete(_) => try_plain(rows, change),
        Change::Patch { name, patch } => try_patch(alloc, rows, name, patch),
    }
}
