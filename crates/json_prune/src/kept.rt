ghost use Rattle.std.specs.Prelude.{◌≡◌, true, IfOk, IfErr};
ghost use Rattle.json_span.specs.Fault.{IsRefusal};
ghost use Rattle.json_span.specs.Value.{Value, StandsFor, flat};
ghost use Rattle.json_prune.specs.Kept.{LeavesOut, LeavesManaged, Keeps};
ghost use Rattle.json_prune.specs.Names.{names};
ghost use Rattle.json_prune.specs.Prune as spec;
ghost use Rattle.json_prune.specs.Tokens.{HasTokens};

use crate::mending::mend;
use crate::names::none;
use crate::pruning::pruned;
use json_span::{JsonError, compact, member};
use std::alloc::{AllocError, Global};

// Where the objects of a list have their managed fields. An object has its own at what the path ends with, from `OWN` on.
const MANAGED: &str = "items/*/metadata/managedFields";

const OWN: usize = 8;

// Where the objects in a Table's rows have theirs.
const OF_ROWS: &str = "rows/*/object/metadata/managedFields";

// The kind of a Table, as its text spells it.
const TABLE: &str = "\"Table\"";

/// The tokens of a JSON text joined, without the members at the path. The path's names, the outermost first, are separated
/// by `/`, and each is compared as the text spells it; `*` before another name leads to all items of an array. The empty
/// path drops none.
pub fn without(alloc: Global, text: &[u8], path: &str) -> Result<Vec<u8>, JsonError>
    ensures ok { IfOk result (λ left. LeavesOut (names path.now) left.items text.now) }
    ensures err { IfErr result (λ error. IsRefusal text.now error) }
{
    let whole = compact(alloc, text)?;
    let path = path.as_bytes();
    if path.is_empty() {
        return Ok(whole);
    }
    Ok(pruned(alloc, &whole, path, 0, none(path))?)
}

// Whether a compact text is that of a Table.
fn is_table(whole: &[u8]) -> bool
    ensures { (v : Value) → StandsFor whole.now v → whole.now ≡ flat v → result ≡ spec.is_table v }
{
    match member(whole, "kind") {
        Some((from, to)) => &whole[from..to] == TABLE.as_bytes(),
        None => false,
    }
}

// A compact text without the managed fields of its rows.
fn rows_cut(alloc: Global, whole: &[u8]) -> Result<Vec<u8>, AllocError>
    ensures { (v : Value) → whole.now ≡ flat v → HasTokens v
        → IfOk result (λ left. left.items ≡ flat (spec.prune spec.fields_of_rows v)) }
{
    let path = OF_ROWS.as_bytes();
    pruned(alloc, whole, path, 0, none(path))
}

// The same where it is that of a Table, and else the text.
fn without_rows(alloc: Global, whole: Vec<u8>) -> Result<Vec<u8>, AllocError>
    ensures { (v : Value) → StandsFor whole.items v → whole.items ≡ flat v
        → IfOk result (λ left. left.items ≡ flat (spec.rows_pruned v)) }
{
    let bytes = whole.as_slice();
    if is_table(bytes) {
        rows_cut(alloc, bytes)
    } else {
        Ok(whole)
    }
}

fn without_managed(alloc: Global, text: &[u8]) -> Result<Vec<u8>, JsonError>
    ensures ok { IfOk result (λ left. LeavesManaged true left.items text.now) }
    ensures err { IfErr result (λ error. IsRefusal text.now error) }
{
    let whole = compact(alloc, text)?;
    let left = without_rows(alloc, whole)?;
    Ok(pruned(alloc, &left, MANAGED.as_bytes(), OWN, 0)?)
}

fn left(alloc: Global, text: &[u8], omit: bool) -> Result<Vec<u8>, JsonError>
    ensures ok { IfOk result (λ left. LeavesManaged omit left.items text.now) }
    ensures err { IfErr result (λ error. IsRefusal text.now error) }
{
    if omit {
        return without_managed(alloc, text);
    }
    compact(alloc, text)
}

/// What an event records of a body: the tokens of the JSON text joined, with `\ufffd` for each escape of half a surrogate
/// pair, and where `omit` says so without managed fields.
pub fn keep(alloc: Global, text: &[u8], omit: bool) -> Result<Vec<u8>, JsonError>
    ensures ok { IfOk result (λ kept. Keeps omit kept.items text.now) }
    ensures err { IfErr result (λ error. IsRefusal text.now error) }
{
    let mut kept = left(alloc, text, omit)?;
    mend(&mut kept);
    Ok(kept)
}
