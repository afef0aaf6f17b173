// Where the row of a group and a version is, by a hash of the two.
ghost use Rattle.std.specs.Prelude.{◌≡◌, ◌+◌, ◌<◌, ◌≤◌, ◌&&◌, false, IfOk, IfSome, length, option_map};
ghost use Rattle.std.specs.Str.{bytes_eq};
ghost use Rattle.apiservice_table.specs.Index as spec;
ghost use Rattle.apiservice_table.specs.Table as table;

use apiservice_rows::{MOST_ROWS, Row};
use front_base::NoMemory;
use std::alloc::Global;
use std::hash::{FoldHasher, Hasher};
use std::marker::Model;

// Four for each row that a table may hold, so that most slots have one row or none.
pub const SLOTS: usize = 4096;

// The most rows that a look-up compares by the index.
const MOST_COMPARED: usize = 8;

// The rows of each slot, linked in their order. Contracts see the links. No memory is taken once it is made.
#[derive(Debug, Drop)]
pub struct Index {
    // By slots, the place of the first row.
    first: Vec<Option<u16>>,
    // By places, the place of the next row of the same slot.
    next: Vec<Option<u16>>,
}

impl Model for Index {
    ghost use Rattle.std.specs.Prelude.{◌≡◌, length};
    ghost use Rattle.apiservice_rows.specs.declared.row_list.TheConstants.{MOST_ROWS};
    ghost use Rattle.apiservice_table.specs.declared.index.TheConstants.{SLOTS};
    ghost use Rattle.apiservice_table.specs.Index as seen;

    ghost Value = { seen.Links };

    ghost view = { λ i. record { first = i.first.items; next = i.next.items } };

    ghost invariant = { λ i. (length i.first.items ≡ SLOTS) × (length i.next.items ≡ MOST_ROWS) };
}

// The slot of a group and a version.
#[tactic(auto, unfolding(crate::specs::Index::slot_of))]
fn slot_of(group: &str, version: &str) -> usize
    ensures value { result ≡ spec.slot_of group.now version.now }
    ensures within { result < SLOTS }
{
    let mut hasher = FoldHasher::default();
    hasher.write(group.as_bytes());
    hasher.write(version.as_bytes());
    (hasher.finish() % SLOTS as u64) as usize
}

// Whether a row is of that group and version.
pub fn is_of(row: &Row, group: &str, version: &str) -> bool
    ensures { result ≡ (bytes_eq row.now.group group.now && bytes_eq row.now.version version.now) }
{
    row.group.as_str() == group && row.version.as_str() == version
}

impl Index {
    // An index of these rows.
    pub fn new(alloc: Global, rows: &[Row]) -> Result<Index, NoMemory>
        requires { length rows.now ≤ MOST_ROWS }
        ensures { IfOk result (λ index. spec.LinksAll rows.now index) }
    {
        let mut index = Index {
            first: vec![in alloc; None; SLOTS]?,
            next: vec![in alloc; None; MOST_ROWS]?,
        };
        index.relink(rows);
        Ok(index)
    }

    // Unlinks all rows.
    fn clear(&mut self, rows: &[Row])
        ensures { spec.LinksFrom (length rows.now) rows.now self.new }
    {
        self.first.fill(None);
    }

    // Links the row at that place before the ones after it.
    fn link(&mut self, rows: &[Row], at: usize)
        requires within { at < length rows.now }
        requires few { length rows.now ≤ MOST_ROWS }
        requires linked { spec.LinksFrom (at + 1) rows.now self.old }
        ensures { spec.LinksFrom at rows.now self.new }
    {
        let row = &rows[at];
        let slot = slot_of(row.group.as_str(), row.version.as_str());
        self.next[at] = self.first[slot];
        self.first[slot] = Some(at as u16);
    }

    // Links these rows in place of the ones before.
    pub fn relink(&mut self, rows: &[Row])
        requires { length rows.now ≤ MOST_ROWS }
        ensures { spec.LinksAll rows.now self.new }
    {
        self.clear(rows);
        let mut at = rows.len();
        while at > 0 {
            at -= 1;
            self.link(rows, at);
        }
    }

    // Links the rows after a change. Where it moved none, each still has its group and its version, and its links.
    pub fn renew(&mut self, rows: &[Row], moved: bool)
        requires few { length rows.now ≤ MOST_ROWS }
        requires linked { moved ≡ false → spec.LinksAll rows.now self.old }
        ensures { spec.LinksAll rows.now self.new }
    {
        if moved {
            self.relink(rows);
        }
    }

    // The row of that group and version, or None where the first `MOST_COMPARED` rows of their slot don't tell it.
    pub fn find<'a>(&self, rows: &'a [Row], group: &str, version: &str) -> Option<Option<&'a Row>>
        requires few { length rows.now ≤ MOST_ROWS }
        requires linked { spec.LinksAll rows.now self.now }
        ensures { IfSome result (λ found.
            option_map (λ row. row.now) found ≡ table.row group.now version.now rows.now) }
    {
        let mut next = self.first[slot_of(group, version)];
        for _ in 0..MOST_COMPARED {
            let Some(at) = next else {
                return Some(None);
            };
            let at = at as usize;
            let row = &rows[at];
            if is_of(row, group, version) {
                return Some(Some(row));
            }
            next = self.next[at];
        }
        None
    }
}
