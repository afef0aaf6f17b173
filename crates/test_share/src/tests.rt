ghost use Rattle.std.specs.Prelude.{◌≡◌};

use apiservice_rows::{Rows, read_row};
use apiservice_table::{Change, ChangeFault, RouteTable, Routes};
use front_base::{Bytes, Text};
use route_history::{NewRoutes, RouteName};
use route_share::{SharedTable, share_routes};
use std::alloc::Global;
use std::marker::Brand;
use std::sync::Wait;
use std::sync::ledger::Blank;
use std::test::Fail;
use std::thread::Threads;
use std::{str, thread};

// One of two APIs.
#[derive(Clone, Copy)]
struct Api {
    group: &'static str,
    name: &'static str,
    object: &'static str,
}

const A: Api = Api {
    group: "a",
    name: "v1.a",
    object: r#"{"kind":"APIService","apiVersion":"apiregistration.k8s.io/v1","metadata":{"name":"v1.a"},
"spec":{"group":"a","version":"v1","groupPriorityMinimum":1,"versionPriority":1}}"#,
};

const B: Api = Api {
    group: "b",
    name: "v1.b",
    object: r#"{"kind":"APIService","apiVersion":"apiregistration.k8s.io/v1","metadata":{"name":"v1.b"},
"spec":{"group":"b","version":"v1","groupPriorityMinimum":1,"versionPriority":1}}"#,
};

fn came_of(done: Result<Option<Bytes>, ChangeFault>) -> &'static str {
    match done {
        Ok(_) => "done",
        Err(ChangeFault::Exists) => "exists",
        Err(ChangeFault::Missing) => "missing",
        Err(ChangeFault::Full) => "full",
        Err(ChangeFault::Invalid) => "invalid",
        Err(ChangeFault::NoMemory) => "no memory",
    }
}

fn create<X: Routes>(alloc: Global, routes: &mut X, api: Api) -> Option<&'static str> {
    let row = read_row(alloc, api.object.as_bytes()).ok()?;
    Some(came_of(routes.change(alloc, Change::Create(row))))
}

fn delete<X: Routes>(alloc: Global, routes: &mut X, api: Api) -> Option<&'static str> {
    let name = Text::copy_of(alloc, api.name).ok()?;
    Some(came_of(routes.change(alloc, Change::Delete(name))))
}

fn has<X: Routes>(routes: &mut X, api: Api) -> Option<&'static str> {
    Some(if routes.has(api.group, "v1") {
        "yes"
    } else {
        "no"
    })
}

// How often each of two threads registers its API and deletes it again.
const ROUNDS: u64 = 100;

// What one thread does, and how many of its answers no order of the changes allows.
#[derive(Drop)]
struct Task<X> {
    alloc: Global,
    routes: X,
    wrong: u64,
}

impl<X: Routes> Task<X> {
    fn expect(&mut self, came: Option<&'static str>, due: &str) {
        if came != Some(due) {
            self.wrong = self.wrong.saturating_add(1);
        }
    }

    // Nobody else changes this API.
    fn change(&mut self, api: Api) {
        for _ in 0..ROUNDS {
            let came = create(self.alloc, &mut self.routes, api);
            self.expect(came, "done");
            let came = has(&mut self.routes, api);
            self.expect(came, "yes");
            let came = delete(self.alloc, &mut self.routes, api);
            self.expect(came, "done");
            let came = has(&mut self.routes, api);
            self.expect(came, "no");
        }
    }

    // Each change adds or deletes one of two APIs: one of them alone is there after an odd number of changes.
    fn fits(&mut self) -> Option<bool> {
        let list = self.routes.service_list(self.alloc).ok()?;
        let text = str::from_utf8(list.as_slice()).ok()?;
        let one = text.contains("v1.a") != text.contains("v1.b");
        Some(one == (self.routes.seen_count() % 2 == 1))
    }

    // Asks until all changes are seen.
    fn ask(&mut self) {
        let mut last = 0;
        for _ in 0..1_000_000u64 {
            if !self.fits().unwrap_or(false) {
                self.wrong = self.wrong.saturating_add(1);
            }
            let seen = self.routes.seen_count();
            if seen < last {
                self.wrong = self.wrong.saturating_add(1);
            }
            if seen >= 4 * ROUNDS {
                return;
            }
            last = seen;
            thread::yield_now();
        }
        self.wrong = self.wrong.saturating_add(1);
    }

    fn run(&mut self, number: usize) {
        match number {
            0 => self.change(A),
            1 => self.change(B),
            _ => self.ask(),
        }
    }
}

fn run_tasks<X: Routes + Send, R: Threads + Sync>(rt: &R, tasks: &mut [Task<X>]) {
    let count = tasks.len();
    if count > 0 {
        thread::for_each_mut(rt, tasks, count, &|number, task| task.run(number));
    }
}

// How many answers of these threads no order of the changes allows.
fn wrong_of<X: Routes + Drop + Send, R: Threads + Sync>(
    rt: &R,
    alloc: Global,
    all: Vec<X>,
) -> Result<u64, Fail> {
    let mut tasks = Vec::new(alloc);
    for routes in all {
        tasks.push(Task {
            alloc,
            routes,
            wrong: 0,
        })?;
    }
    run_tasks(rt, tasks.as_mut_slice());
    let mut wrong = 0u64;
    for task in tasks {
        wrong = wrong.saturating_add(task.wrong);
    }
    Ok(wrong)
}

fn share_and_ask<N: RouteName + Send + Sync, R: Threads + Wait + Copy + Send + Sync + Drop>(
    rt: R,
    alloc: Global,
    routes: NewRoutes,
    blank: Blank,
) -> Result<u64, Fail>
    requires home { routes.home ≡ N.home }
    requires opening { routes.opening ≡ N.opening }
    requires ledger { (blank.name ≡ N.name) × (blank.parts ≡ N.parts) }
    requires parts { blank.parts ≡ 8 }
{
    let SharedTable { routes, .. } = share_routes::<N, R>(rt, alloc, routes, blank, 8)?;
    wrong_of(&rt, alloc, routes)
}

fn no_rows(alloc: Global) -> Result<NewRoutes, Fail> {
    let rows = Rows::new(Vec::new(alloc));
    let table = RouteTable::from_rows(alloc, rows)?;
    Ok(NewRoutes::new(alloc, table)?)
}

#[test]
fn eight_bays_share_one_table(rt: HostRuntime) -> Result<(), Fail> {
    let alloc = rt.alloc();
    let routes = no_rows(alloc)?;
    let wrong = share_and_ask::<Brand, HostRuntime>(rt, alloc, routes, Blank::new(8))?;
    assert_eq!(rt; wrong, 0);
    Ok(())
}
