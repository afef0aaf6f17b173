// Places in a file, as refusals spell them.
ghost use Rattle.std.specs.Prelude.{◌≡◌, IfOk, OnErr, OnOk, ◌++◌, ◌∷◌, []};
ghost use Rattle.warned_files.specs.Places as spec;

use front_base::{NoMemory, Text, Texts};
use std::alloc::Global;

/// How many places are shown.
pub const MOST_SHOWN: usize = 32;

/// The first places of a file, at most `MOST_SHOWN`, and how many more it has.
#[derive(Debug, Drop)]
pub struct Places {
    pub shown: Texts,
    pub more: usize,
}

/// What is shown of all places.
pub fn report(places: Vec<Text>) -> Places
    ensures { result ≡ spec.report places.items }
{
    let mut places = places;
    let more = places.len().saturating_sub(MOST_SHOWN);
    places.truncate(MOST_SHOWN);
    Places {
        shown: Texts::new(places),
        more,
    }
}

/// `OBJECT.NAME`, or `NAME` in the file's own object.
pub fn member_place(alloc: Global, object: &Text, name: &str) -> Result<Text, NoMemory>
    ensures { IfOk result (λ t. t ≡ spec.member_place object.now name.now) }
{
    let object = object.as_str();
    if object.is_empty() {
        return Text::copy_of(alloc, name);
    }
    Ok(Text::new(format!(in alloc; "{object}.{name}")?))
}

/// `LIST[I]`, counted from 0.
pub fn item_place(alloc: Global, list: &Text, i: usize) -> Result<Text, NoMemory>
    ensures { IfOk result (λ t. t ≡ spec.item_place list.now i) }
{
    let list = list.as_str();
    Ok(Text::new(format!(in alloc; "{list}[{i}]")?))
}

/// `record N`, counted from 1, for the row with that number from 0.
pub fn record_place(alloc: Global, row: usize) -> Result<Text, NoMemory>
    ensures { IfOk result (λ t. t ≡ spec.record_place row) }
{
    let number = row as u128 + 1;
    Ok(Text::new(format!(in alloc; "record {number}")?))
}
