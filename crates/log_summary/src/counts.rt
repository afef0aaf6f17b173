// How many requests have a name.
use std::alloc::Global;
use std::collections::BTreeMap;

/// How many names are counted apart. The requests of others are counted together.
pub const MOST_NAMES: usize = 10000;

/// The most bytes of a name that is counted apart.
pub const MOST_NAME_BYTES: usize = 256;

/// How many rows a table has at most.
pub const MOST_ROWS: usize = 10;

/// How many requests have a name, and how many of them each.
#[derive(Drop)]
pub struct Counts {
    by_name: BTreeMap<String, u64>,
    total: u64,
}

/// A name, and how many requests have it.
#[derive(Clone, Copy, Debug)]
pub struct Row<'c> {
    pub name: &'c str,
    pub count: u64,
}

// Whether a row comes later in a table than another one: it has fewer requests, or as many and a name that is greater, byte by byte.
fn is_later(row: Row<'_>, other: Row<'_>) -> bool {
    row.count < other.count || row.count == other.count && other.name < row.name
}

impl Counts {
    pub fn new(alloc: Global) -> Counts {
        Counts {
            by_name: BTreeMap::new(alloc),
            total: 0,
        }
    }

    /// Counts a request of that name. One that there is no room for is counted with the others.
    pub fn add(&mut self, alloc: Global, name: &str) {
        self.add_other();
        if let Some(count) = self.by_name.get_mut(name) {
            *count = count.saturating_add(1);
            return;
        }
        if self.by_name.len() >= MOST_NAMES || name.len() > MOST_NAME_BYTES {
            return;
        }
        if let Ok(own) = String::from_str(alloc, name) {
            let _ = self.by_name.insert(own, 1);
        }
    }

    /// Counts a request whose name isn't known.
    pub fn add_other(&mut self) {
        self.total = self.total.saturating_add(1);
    }

    /// How many requests were counted.
    pub fn total(&self) -> u64 {
        self.total
    }

    /// The row that comes first of those after a row, or of all of them: most requests first, and of as many the lesser name.
    pub fn row_after<'c>(&'c self, last: Option<Row<'c>>) -> Option<Row<'c>> {
        let mut first: Option<Row<'c>> = None;
        for (name, count) in self.by_name.iter() {
            let row = Row {
                name: name.as_str(),
                count: *count,
            };
            if last.is_some_and(|last| !is_later(row, last)) {
                continue;
            }
            if first.is_none_or(|first| is_later(first, row)) {
                first = Some(row);
            }
        }
        first
    }
}
