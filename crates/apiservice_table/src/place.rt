// Where a name stands among rows in order, by binary search.
ghost use Rattle.std.specs.Prelude.{◌≡◌, ◌<◌, ◌≤◌, ◌∷◌, length, MatchResult};
ghost use Rattle.std.specs.Cmp.Lexicographic.{slice_cmp};
ghost use Rattle.std.specs.Ordering.{nat_cmp};
ghost use Rattle.apiservice_rows.specs.Row.{own_name};
ghost use Rattle.apiservice_table.specs.Order.{IsInOrder, place_of};

use apiservice_rows::Row;
use std::cmp::Ordering;

// How the name of a row compares with a name.
fn compare_name(row: &Row, name: &str) -> Ordering
    ensures { result ≡ slice_cmp nat_cmp row.now.name name.now }
{
    row.name.as_str().cmp(name)
}

// The place of the row of that name, or the place where it would stand.
pub fn place_of(rows: &[Row], name: &str) -> Result<usize, usize>
    requires { IsInOrder rows.now }
    ensures value { result ≡ place_of name.now rows.now }
    ensures within { MatchResult result (λ i. i < length rows.now) (λ i. i ≤ length rows.now) }
{
    rows.binary_search_by(|row| compare_name(row, name))
}

// How what follows a version compares with a dot and a group.
fn compare_rest(rest: &[u8], group: &[u8]) -> Ordering
    ensures { result ≡ slice_cmp nat_cmp rest.now (46 ∷ group.now) }
{
    if rest.is_empty() {
        return Ordering::Less;
    }
    let dot = rest[0].cmp(&b'.');
    dot.then(rest[1..].cmp(group))
}

// How a name compares with the one of that version and group, which is not put together.
fn compare_own(name: &[u8], version: &[u8], group: &[u8]) -> Ordering
    ensures { result ≡ slice_cmp nat_cmp name.now (own_name version.now group.now) }
{
    if name.len() < version.len() {
        return name.cmp(version);
    }
    let (front, rest) = name.split_at(version.len());
    let first = front.cmp(version);
    first.then(compare_rest(rest, group))
}

// How the name of a row compares with the one of that version and group.
fn compare_row(row: &Row, version: &str, group: &str) -> Ordering
    ensures { result ≡ slice_cmp nat_cmp row.now.name (own_name version.now group.now) }
{
    compare_own(
        row.name.as_str().as_bytes(),
        version.as_bytes(),
        group.as_bytes(),
    )
}

// The place of the row whose name is the version, a dot and the group, or where it would stand.
pub fn own_place_of(rows: &[Row], group: &str, version: &str) -> Result<usize, usize>
    requires { IsInOrder rows.now }
    ensures value { result ≡ place_of (own_name version.now group.now) rows.now }
    ensures within { MatchResult result (λ i. i < length rows.now) (λ i. i ≤ length rows.now) }
{
    rows.binary_search_by(|row| compare_row(row, version, group))
}
