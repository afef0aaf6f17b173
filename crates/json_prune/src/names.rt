// The names of a path, which `/` separates. What is left of a path is known by the byte where its next name begins, and
// nothing is left where that is past the path's end.
ghost use Rattle.std.specs.Prelude.{◌≡◌, ◌⊎◌, ℕ, ◌+◌, ◌-◌, ◌≤◌, ◌<◌, List, [], ◌∷◌, ◌++◌, length, take, drop, true, false, IfSome, option_map, bytes_eq};
ghost use Rattle.json_prune.specs.Names.{names_from};
ghost use Rattle.json_prune.specs.Prune.{star};
ghost use Rattle.json_prune.specs.Walk as spec;

// Where nothing is left of the path.
pub fn none(path: &[u8]) -> usize
    ensures past { result ≡ length path.now + 1 }
    ensures empty { names_from path.now result ≡ [] }
{
    path.len() + 1
}

// Whether nothing is left of two paths.
pub fn none_left(path: &[u8], first: usize, second: usize) -> bool
    ensures none { result ≡ true → (names_from path.now first ≡ []) × (names_from path.now second ≡ []) }
    ensures some { result ≡ false → (first ≤ length path.now) ⊎ (second ≤ length path.now) }
{
    first > path.len() && second > path.len()
}

// Where the name that begins at a byte ends.
pub fn name_end(path: &[u8], from: usize) -> usize
    ensures order { from ≤ result }
    ensures size { from ≤ length path.now → result ≡ from + spec.name_size (drop from path.now) }
    ensures within { from ≤ length path.now → result ≤ length path.now }
{
    let mut end = from;
    while end < path.len() && path[end] != b'/' {
        end += 1;
    }
    end
}

// Whether the name from `from` to `end` is the one asked for.
fn is_name(path: &[u8], from: usize, end: usize, name: &[u8]) -> bool
    requires order { from ≤ end }
    requires within { from ≤ length path.now → end ≤ length path.now }
    ensures same { from ≤ length path.now → result ≡ bytes_eq name.now (take (end - from) (drop from path.now)) }
    ensures within { result ≡ true → from ≤ length path.now }
{
    from <= path.len() && name == &path[from..end]
}

// What is left behind the name from `from` to `end`, if that is the one asked for and isn't the last; nothing where it is
// another. None where it is the one and the last.
fn step(path: &[u8], from: usize, end: usize, name: &[u8]) -> Option<usize>
    requires order { from ≤ end }
    requires size { from ≤ length path.now → end ≡ from + spec.name_size (drop from path.now) }
    requires within { from ≤ length path.now → end ≤ length path.now }
    ensures names { option_map (names_from path.now) result ≡ spec.behind_name (names_from path.now from) name.now }
    ensures further { IfSome result (λ next. (next ≤ length path.now + 1)
        × (from ≤ length path.now + 1 → from ≤ next) × (from ≤ length path.now → from < next)) }
{
    if !is_name(path, from, end, name) {
        return Some(none(path));
    }
    if end == path.len() {
        return None;
    }
    Some(end + 1)
}

// What is left for the items of an array.
pub fn into_items(path: &[u8], from: usize) -> usize
    ensures names { names_from path.now result ≡ spec.into_items (names_from path.now from) }
    ensures further { (result ≤ length path.now + 1)
        × (from ≤ length path.now + 1 → from ≤ result) × (from ≤ length path.now → from < result) }
{
    match step(path, from, name_end(path, from), b"*") {
        Some(next) => next,
        None => none(path),
    }
}

// What is left of two paths for the value of a member, where their names end at `first.1` and `second.1`. None where one
// of them drops it.
pub fn into_member(
    path: &[u8],
    first: (usize, usize),
    second: (usize, usize),
    name: &[u8],
) -> Option<(usize, usize)>
    requires first_order { first.0 ≤ first.1 }
    requires first_size { first.0 ≤ length path.now → first.1 ≡ first.0 + spec.name_size (drop first.0 path.now) }
    requires first_within { first.0 ≤ length path.now → first.1 ≤ length path.now }
    requires second_order { second.0 ≤ second.1 }
    requires second_size { second.0 ≤ length path.now → second.1 ≡ second.0 + spec.name_size (drop second.0 path.now) }
    requires second_within { second.0 ≤ length path.now → second.1 ≤ length path.now }
    ensures names { (inner : List ℕ) → name.now ≡ 34 ∷ (inner ++ 34 ∷ [])
        → option_map (λ next. (names_from path.now next.0, names_from path.now next.1)) result
        ≡ spec.if_both (spec.into_member (names_from path.now first.0) name.now) (spec.into_member (names_from path.now second.0) name.now) }
    ensures further { IfSome result (λ next. (next.0 ≤ length path.now + 1)
        × (first.0 ≤ length path.now + 1 → first.0 ≤ next.0) × (first.0 ≤ length path.now → first.0 < next.0)
        × (next.1 ≤ length path.now + 1)
        × (second.0 ≤ length path.now + 1 → second.0 ≤ next.1) × (second.0 ≤ length path.now → second.0 < next.1)) }
{
    if name.len() < 2 {
        return None;
    }
    let inner = &name[1..name.len() - 1];
    let Some(first) = step(path, first.0, first.1, inner) else {
        return None;
    };
    let Some(second) = step(path, second.0, second.1, inner) else {
        return None;
    };
    Some((first, second))
}
