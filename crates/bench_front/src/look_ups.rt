// Look-ups by many threads at once, in tables of their own or in one that they share.
ghost use Rattle.std.specs.Prelude.{◌≡◌};

use crate::calls::{keys_of, table_of};
use apiservice_rows::{Row, read_rows};
use apiservice_table::{Change, RouteTable, Routes, TableRoutes};
use route_history::{NewRoutes, RouteName};
use route_share::{SharedTable, share_routes};
use std::alloc::Global;
use std::marker::Brand;
use std::rt::Clock;
use std::sync::Wait;
use std::sync::atomic::{AtomicUsize, Ordering};
use std::sync::ledger::Blank;
use std::thread;
use std::thread::Threads;
use std::time::Duration;

/// What is looked up, how often by each of so many threads, and whether another one changes a row every hundredth of a second.
#[derive(Drop)]
pub struct LookUps {
    keys: Vec<(String, String)>,
    times: u32,
    threads: u16,
    writes: bool,
}

impl LookUps {
    pub fn new(
        alloc: Global,
        text: &[u8],
        times: u32,
        threads: u16,
        writes: bool,
    ) -> Option<LookUps> {
        let rows = read_rows(alloc, text).ok()?;
        let keys = keys_of(alloc, rows.as_slice(), 32);
        drop(rows);
        Some(LookUps {
            keys: keys?,
            times,
            threads: threads.min(64),
            writes,
        })
    }

    // How many routes there are: one for each thread.
    fn count(&self) -> u16 {
        self.threads.saturating_add(if self.writes { 1 } else { 0 })
    }
}

// One thread.
#[derive(Drop)]
struct Task<X> {
    alloc: Global,
    routes: X,
    row: Row,
    good: bool,
}

impl<X: Routes> Task<X> {
    fn find(&mut self, asked: &LookUps) {
        let mut turn = 0usize;
        for _ in 0..asked.times {
            if let Some((group, version)) = asked.keys.get(turn) {
                let found = self
                    .routes
                    .find(self.alloc, group.as_str(), version.as_str());
                let is_found = matches!(found, Ok(Some(_)));
                drop(found);
                self.good = self.good && is_found;
            }
            turn = turn.saturating_add(1);
            if turn >= asked.keys.len() {
                turn = 0;
            }
        }
    }

    fn change(&mut self) {
        let Ok(row) = self.row.copy(self.alloc) else {
            self.good = false;
            return;
        };
        self.good = self.good && self.routes.change(self.alloc, Change::Replace(row)).is_ok();
    }
}

// The last thread changes a row until all others are done, where one is to do so.
fn run_task<X: Routes, R: Clock>(
    rt: &R,
    asked: &LookUps,
    number: usize,
    task: &mut Task<X>,
    done: &AtomicUsize,
) {
    if number < usize::from(asked.threads) {
        task.find(asked);
        done.fetch_add(1, Ordering::SeqCst);
        return;
    }
    for _ in 0..u32::MAX {
        if done.load(Ordering::SeqCst) >= usize::from(asked.threads) {
            return;
        }
        task.change();
        let _ = thread::sleep(rt, Duration::from_millis(10));
    }
}

// Adds a task over these routes.
fn push_task<X: Drop>(alloc: Global, tasks: &mut Vec<Task<X>>, routes: X, row: &Row) -> Option<()> {
    let row = row.copy(alloc).ok()?;
    let task = Task {
        alloc,
        routes,
        row,
        good: true,
    };
    tasks.push(task).ok()
}

// A task over each of these.
fn tasks_of<X: Drop>(alloc: Global, all: Vec<X>, row: &Row) -> Option<Vec<Task<X>>> {
    let mut tasks = Vec::new(alloc);
    let mut whole = true;
    for routes in all {
        whole = whole && push_task(alloc, &mut tasks, routes, row).is_some();
    }
    if whole { Some(tasks) } else { None }
}

// Whether all threads found what they looked up.
fn run_all<X: Routes + Drop + Send, R: Threads + Sync + Clock>(
    rt: &R,
    alloc: Global,
    asked: &LookUps,
    all: Vec<X>,
    row: &Row,
) -> Option<bool> {
    let mut tasks = tasks_of(alloc, all, row)?;
    let done = AtomicUsize::new(0);
    let count = tasks.len();
    if count > 0 {
        thread::for_each_mut(
            rt,
            tasks.as_mut_slice(),
            count,
            &|number, task| run_task(rt, asked, number, task, &done),
        );
    }
    Some(tasks.as_slice().iter().all(|task| task.good))
}

fn first_row(alloc: Global, table: &RouteTable) -> Option<Row> {
    table.rows().first()?.copy(alloc).ok()
}

// The table of a list, and its first row.
fn table_and_row(alloc: Global, text: &[u8]) -> Option<(RouteTable, Row)> {
    let table = table_of(alloc, text)?;
    let Some(row) = first_row(alloc, &table) else {
        drop(table);
        return None;
    };
    Some((table, row))
}

fn push_routes(alloc: Global, all: &mut Vec<TableRoutes>, text: &[u8]) -> Option<()> {
    let table = table_of(alloc, text)?;
    let routes = TableRoutes::new(alloc, table).ok()?;
    all.push(routes).ok()
}

// So many tables of a list.
fn routes_of(alloc: Global, text: &[u8], count: u16) -> Option<Vec<TableRoutes>> {
    let mut all = Vec::new(alloc);
    for _ in 0..count {
        push_routes(alloc, &mut all, text)?;
    }
    Some(all)
}

/// By threads that have a table each.
pub fn own<R: Threads + Sync + Clock>(
    rt: &R,
    alloc: Global,
    asked: &LookUps,
    text: &[u8],
) -> Option<bool> {
    let (table, row) = table_and_row(alloc, text)?;
    drop(table);
    let done = match routes_of(alloc, text, asked.count()) {
        Some(all) => run_all(rt, alloc, asked, all, &row),
        None => None,
    };
    drop(row);
    done
}

// By threads that share one table.
fn share<N: RouteName + Send + Sync, R: Threads + Wait + Copy + Send + Sync + Drop + Clock>(
    rt: R,
    alloc: Global,
    asked: &LookUps,
    routes: NewRoutes,
    blank: Blank,
    bays: u16,
    row: &Row,
) -> Option<bool>
    requires home { routes.home ≡ N.home }
    requires opening { routes.opening ≡ N.opening }
    requires ledger { (blank.name ≡ N.name) × (blank.parts ≡ N.parts) }
    requires parts { blank.parts ≡ bays }
{
    let SharedTable { routes, .. } = share_routes::<N, R>(rt, alloc, routes, blank, bays).ok()?;
    run_all(&rt, alloc, asked, routes, row)
}

/// By threads that share the table of a list.
pub fn shared<R: Threads + Wait + Copy + Send + Sync + Drop + Clock>(
    rt: R,
    alloc: Global,
    asked: &LookUps,
    text: &[u8],
) -> Option<bool> {
    let (table, row) = table_and_row(alloc, text)?;
    let Ok(routes) = NewRoutes::new(alloc, table) else {
        drop(row);
        return None;
    };
    let bays = asked.count();
    let blank = Blank::new(u64::from(bays));
    let done = share::<Brand, R>(rt, alloc, asked, routes, blank, bays, &row);
    drop(row);
    done
}
