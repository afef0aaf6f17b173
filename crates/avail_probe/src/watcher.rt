ghost use Rattle.std.specs.Prelude.{◌≡◌, ◌≤◌, ◌<◌, [], false, IfOk, length};
ghost use Rattle.avail_probe.specs.Watching as spec;

use crate::patch::told_of;
use apiservice_rows::Row;
use arrayvec::ArrayVec;
use front_base::NoMemory;
use std::alloc::Global;
use std::marker::Model;

/// How many probes of a row are kept.
pub const MOST_PROBES: usize = 10;

/// The most probes that may decide. It isn't above `MOST_PROBES`.
pub const MOST_THRESHOLD: u8 = 10;

// The condition of a row, and its last probes.
#[derive(Drop)]
struct Condition {
    told: Option<bool>,
    refused: bool,
    probes: ArrayVec<bool, MOST_PROBES>,
}

impl Model for Condition {
    ghost use Rattle.avail_probe.specs.Watching as seen;

    ghost Value = { seen.Watched };

    ghost view = { λ c. record { told = c.told; refused = c.refused; probes = c.probes.items } };
}

fn is_so(good: bool, probe: bool) -> bool
    ensures { result ≡ spec.is_so good probe }
{
    if good { probe } else { !probe }
}

// All probes are good, or all bad.
fn are_so(good: bool, probes: &[bool]) -> bool
    ensures { result ≡ spec.are_so good probes.now }
{
    for probe in probes {
        if !is_so(good, *probe) {
            return false;
        }
    }
    true
}

// The last so many probes are there, and all are good, or all bad.
fn are_last(count: usize, good: bool, probes: &[bool]) -> bool
    ensures { result ≡ spec.are_last count good probes.now }
{
    if probes.len() < count {
        return false;
    }
    are_so(good, &probes[probes.len() - count..])
}

fn wish_for(threshold: u8, up: bool, probes: &[bool]) -> Option<bool>
    ensures { result ≡ spec.wish_for threshold up probes.now }
{
    if are_last(threshold as usize, up, probes) {
        Some(up)
    } else {
        None
    }
}

fn either(a: Option<bool>, b: Option<bool>) -> Option<bool>
    ensures { result ≡ spec.either a b }
{
    match a {
        Some(up) => Some(up),
        None => b,
    }
}

impl Condition {
    fn new(told: Option<bool>) -> Condition
        ensures { result ≡ record { told = told; refused = false; probes = [] } }
    {
        Condition {
            told,
            refused: false,
            probes: ArrayVec::new(),
        }
    }

    // Keeps a probe, and of more than it has room for not the oldest.
    fn probe(&mut self, good: bool)
        ensures { self.new ≡ spec.probed good self.old }
    {
        if self.probes.is_full() {
            self.probes.remove(0);
        }
        self.probes.push(good);
    }

    fn wish(&self, threshold: u8) -> Option<bool>
        ensures { result ≡ spec.wish threshold self.now }
    {
        let probes = self.probes.as_slice();
        match self.told {
            Some(up) => wish_for(threshold, !up, probes),
            None => either(
                wish_for(threshold, true, probes),
                wish_for(threshold, false, probes),
            ),
        }
    }

    fn set(&mut self, up: bool)
        ensures { self.new ≡ spec.put up self.old }
    {
        self.told = Some(up);
        self.refused = false;
    }

    fn refuse(&mut self)
        ensures { self.new ≡ spec.refuse self.old }
    {
        self.refused = true;
    }
}

/// Watches rows by probes of their services. Contracts see the condition of each row, its last probes, and whether what was told of it last
/// wasn't taken.
#[derive(Drop)]
pub struct Watcher {
    threshold: u8,
    rows: Vec<Condition>,
}

impl Model for Watcher {
    ghost use Rattle.avail_probe.specs.Watching as seen;

    ghost Value = { seen.Watch };

    ghost view = { λ w. record { threshold = w.threshold; rows = w.rows.items } };
}

impl Watcher {
    /// Watches these rows, each with the condition that it has, and none of them probed yet. `threshold` is how many probes
    /// one after another decide. All memory is taken here.
    pub fn start(alloc: Global, rows: &[Row], threshold: u8) -> Result<Watcher, NoMemory>
        requires { (1 ≤ threshold) × (threshold ≤ MOST_THRESHOLD) }
        ensures { IfOk result (λ watcher. watcher ≡ record { threshold = threshold; rows = spec.opened rows.now }) }
    {
        let mut conditions = Vec::with_capacity(alloc, rows.len())?;
        for row in rows {
            conditions.push(Condition::new(told_of(alloc, row)?))?;
        }
        Ok(Watcher {
            threshold,
            rows: conditions,
        })
    }

    /// Keeps a probe of the row at that place, counted from 0, and answers the condition that is wished for it now, if it is
    /// another one than it has.
    pub fn probed(&mut self, at: u32, good: bool) -> Option<bool>
        requires { at < length self.old.rows }
        ensures rows { self.new.rows ≡ spec.changed at (spec.probed good) self.old.rows }
        ensures wish { result ≡ spec.wish_at self.old.threshold at self.new.rows }
        ensures threshold { self.new.threshold ≡ self.old.threshold }
        ensures length { length self.new.rows ≡ length self.old.rows }
    {
        let row = &mut self.rows[at as usize];
        row.probe(good);
        row.wish(self.threshold)
    }

    /// The row at that place has this condition now, as it was told. Its probes stay.
    pub fn set(&mut self, at: u32, up: bool)
        requires { at < length self.old.rows }
        ensures rows { self.new.rows ≡ spec.changed at (spec.put up) self.old.rows }
        ensures threshold { self.new.threshold ≡ self.old.threshold }
        ensures length { length self.new.rows ≡ length self.old.rows }
    {
        self.rows[at as usize].set(up);
    }

    /// What was told of the row at that place wasn't taken. Its condition and its probes stay.
    pub fn refuse(&mut self, at: u32)
        requires { at < length self.old.rows }
        ensures rows { self.new.rows ≡ spec.changed at spec.refuse self.old.rows }
        ensures threshold { self.new.threshold ≡ self.old.threshold }
        ensures length { length self.new.rows ≡ length self.old.rows }
    {
        self.rows[at as usize].refuse();
    }

    /// Whether what was told of some row last wasn't taken.
    pub fn any_refused(&self) -> bool
        ensures { result ≡ spec.any_refused self.now.rows }
    {
        for row in self.rows.as_slice() {
            if row.refused {
                return true;
            }
        }
        false
    }
}
