ghost use Rattle.std.specs.Prelude.{◌≡◌, ◌⊎◌, ℕ, ◌+◌, ◌≤◌, ◌<◌, List, ◌++◌, [], length, drop, true, false, slice_index, IfOk};
ghost use Rattle.json_span.specs.Value.{Value, Items, Members, flat, flat_items, flat_members};
ghost use Rattle.json_prune.specs.Names.{names_from};
ghost use Rattle.json_prune.specs.Skip.{Ends};
ghost use Rattle.json_prune.specs.Tokens.{HasTokens, ItemsHaveTokens, MembersHaveTokens};
ghost use Rattle.json_prune.specs.Walk.{prune_both, items_left, members_left, written, Copies};

use crate::copied::Copied;
use crate::names::{into_items, into_member, name_end, none_left};
use crate::skip::{string_len, value_len};
use std::alloc::{AllocError, Global};

fn stands(text: &[u8], at: usize, byte: u8) -> bool
    ensures yes { result ≡ true → (at < length text.now) × (slice_index text.now at ≡ byte) }
    ensures no { result ≡ false → at < length text.now → ¬ (slice_index text.now at ≡ byte) }
{
    at < text.len() && text[at] == byte
}

// Copies the value that begins at a byte without what two paths drop, and says where it ends.
#[cycle(prune)]
fn prune_value(
    copied: &mut Copied,
    text: &[u8],
    at: usize,
    path: &[u8],
    first: usize,
    second: usize,
) -> Result<usize, AllocError>
    requires order { copied.old.from ≤ at }
    requires within { at ≤ length text.now }
    requires first { first ≤ length path.now + 1 }
    requires second { second ≤ length path.now + 1 }
    ensures within { IfOk result (λ end. (copied.new.from ≤ end) × (at ≤ end) × (end ≤ length text.now)) }
    ensures copies { (v : Value) (rest : List ℕ) → drop at text.now ≡ flat v ++ rest → HasTokens v → Ends rest
        → IfOk result (λ end. Copies text.now at end copied.old copied.new (flat v)
        (flat (prune_both (names_from path.now first) (names_from path.now second) v))) }
{
    if none_left(path, first, second) {
        return Ok(at + value_len(&text[at..]));
    }
    if stands(text, at, b'{') {
        return prune_members(copied, text, at + 1, path, first, second);
    }
    if stands(text, at, b'[') {
        return prune_items(copied, text, at + 1, path, first, second);
    }
    Ok(at + value_len(&text[at..]))
}

// The same for what stands behind the opening bracket of an array.
#[cycle(prune)]
fn prune_items(
    copied: &mut Copied,
    text: &[u8],
    start: usize,
    path: &[u8],
    first: usize,
    second: usize,
) -> Result<usize, AllocError>
    requires order { copied.old.from ≤ start }
    requires within { start ≤ length text.now }
    requires first { first ≤ length path.now + 1 }
    requires second { second ≤ length path.now + 1 }
    requires some { (first ≤ length path.now) ⊎ (second ≤ length path.now) }
    ensures within { IfOk result (λ end. (copied.new.from ≤ end) × (start ≤ end) × (end ≤ length text.now)) }
    ensures copies { (vs : Items) (rest : List ℕ) → drop start text.now ≡ flat_items false vs ++ rest → ItemsHaveTokens vs
        → IfOk result (λ end. Copies text.now start end copied.old copied.new (flat_items false vs)
        (flat_items false (items_left (names_from path.now first) (names_from path.now second) vs))) }
{
    if stands(text, start, b']') {
        return Ok(start + 1);
    }
    let one = into_items(path, first);
    let other = into_items(path, second);
    let mut at = start;
    while at < text.len() {
        let end = prune_value(copied, text, at, path, one, other)?;
        if !stands(text, end, b',') {
            return Ok(text.len().min(end + 1));
        }
        at = end + 1;
    }
    Ok(at)
}

// The same for what stands behind the opening bracket of an object.
#[cycle(prune)]
fn prune_members(
    copied: &mut Copied,
    text: &[u8],
    start: usize,
    path: &[u8],
    first: usize,
    second: usize,
) -> Result<usize, AllocError>
    requires order { copied.old.from ≤ start }
    requires within { start ≤ length text.now }
    requires first { first ≤ length path.now + 1 }
    requires second { second ≤ length path.now + 1 }
    requires some { (first ≤ length path.now) ⊎ (second ≤ length path.now) }
    ensures within { IfOk result (λ end. (copied.new.from ≤ end) × (start ≤ end) × (end ≤ length text.now)) }
    ensures copies { (ms : Members) (rest : List ℕ) → drop start text.now ≡ flat_members false ms ++ rest → MembersHaveTokens ms
        → IfOk result (λ end. Copies text.now start end copied.old copied.new (flat_members false ms)
        (flat_members false (members_left (names_from path.now first) (names_from path.now second) ms))) }
{
    if stands(text, start, b'}') {
        return Ok(start + 1);
    }
    let one = (first, name_end(path, first));
    let other = (second, name_end(path, second));
    let mut end = start;
    let mut at = start;
    let mut kept = false;
    while at < text.len() {
        let colon = at + 1 + string_len(&text[at + 1..]);
        if colon == text.len() {
            return Ok(colon);
        }
        match into_member(path, one, other, &text[at..colon]) {
            Some(next) => {
                copied.cut_comma(text, kept, end, at)?;
                end = prune_value(copied, text, colon + 1, path, next.0, next.1)?;
                kept = true;
            }
            None => {
                let to = colon + 1 + value_len(&text[colon + 1..]);
                copied.cut(text, end, to)?;
                end = to;
            }
        }
        if !stands(text, end, b',') {
            return Ok(text.len().min(end + 1));
        }
        at = end + 1;
    }
    Ok(at)
}

// The compact text of a value without what two paths drop: the names from `first` and those from `second` on.
pub fn pruned(
    alloc: Global,
    text: &[u8],
    path: &[u8],
    first: usize,
    second: usize,
) -> Result<Vec<u8>, AllocError>
    requires first { first ≤ length path.now + 1 }
    requires second { second ≤ length path.now + 1 }
    ensures { (v : Value) → text.now ≡ flat v → HasTokens v → IfOk result (λ out. out.items
        ≡ flat (prune_both (names_from path.now first) (names_from path.now second) v)) }
{
    let mut copied = Copied::new(alloc, text.len())?;
    let end = prune_value(&mut copied, text, 0, path, first, second)?;
    copied.cut(text, end, end)?;
    Ok(copied.out)
}
