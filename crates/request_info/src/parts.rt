// The parts of a path.
ghost use Rattle.std.specs.Prelude.{◌≡◌, ◌==◌, IfOk};
ghost use Rattle.std.specs.List.{slice_split};
ghost use Rattle.request_info.specs.Parts as spec;

use std::alloc::{AllocError, Global};

/// A path, cut at its slashes.
pub fn split<'p>(alloc: Global, path: &'p str) -> Result<Vec<&'p str>, AllocError>
    ensures { IfOk result (λ parts.
        spec.texts_of parts.items ≡ slice_split (λ b. b == 47) path.now) }
{
    path.split('/').collect(alloc)
}

fn from_first<'a, 'p>(parts: &'a [&'p str]) -> &'a [&'p str]
    ensures { spec.texts_of result.now ≡ spec.from_first (spec.texts_of parts.now) }
{
    for i in 0..parts.len() {
        if !parts[i].is_empty() {
            return &parts[i..];
        }
    }
    &parts[parts.len()..]
}

fn to_last<'a, 'p>(parts: &'a [&'p str]) -> &'a [&'p str]
    ensures { spec.texts_of result.now ≡ spec.to_last (spec.texts_of parts.now) }
{
    let mut end = 0;
    for i in 0..parts.len() {
        if !parts[i].is_empty() {
            end = i + 1;
        }
    }
    &parts[..end]
}

/// The parts of a path that was cut at its slashes, without the empty ones at its ends.
pub fn parts_of<'a, 'p>(cut: &'a [&'p str]) -> &'a [&'p str]
    ensures { spec.texts_of result.now ≡ spec.to_last (spec.from_first (spec.texts_of cut.now)) }
{
    to_last(from_first(cut))
}
