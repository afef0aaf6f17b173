// What runs in threads.
use role_threads::{Role, Roles, run_roles};
use std::alloc::Global;
use std::sync::Wait;
use std::sync::atomic::{AtomicUsize, Ordering};
use std::thread::Threads;

// A bay that has so much to do.
#[derive(Drop)]
struct Worker {
    todo: u64,
    done: u64,
}

impl<T> Role<T> for Worker {
    ghost use Rattle.std.specs.Prelude.{◌≡◌};

    ghost ran = { λ a b. b.done ≡ a.todo };

    fn run(&mut self, _rt: &T, ended: &AtomicUsize, _bays: usize) {
        self.done = self.todo;
        ended.fetch_add(1, Ordering::SeqCst);
    }
}

// A drainer that waits until all bays have ended, and says of how many that is.
#[derive(Drop)]
struct Waiter {
    ended: usize,
}

impl<T: Wait> Role<T> for Waiter {
    ghost use Rattle.std.specs.Prelude.{⊤};

    ghost ran = { λ _ _. ⊤ };

    fn run(&mut self, rt: &T, ended: &AtomicUsize, bays: usize) {
        for _ in rt.forever() {
            let count = ended.load(Ordering::SeqCst);
            if count >= bays {
                self.ended = count;
                break;
            }
        }
    }
}

// Four bays, and two drainers.
fn roles(alloc: Global) -> Roles<Worker, Waiter, Waiter> {
    let mut bays = Vec::new(alloc);
    for todo in 1..5u64 {
        let _ = bays.push(Worker { todo, done: 0 });
    }
    Roles {
        bays,
        log: Some(Waiter { ended: 0 }),
        hook: Some(Waiter { ended: 0 }),
    }
}

fn seen_by(drainer: &Option<Waiter>) -> usize {
    match drainer {
        Some(drainer) => drainer.ended,
        None => 0,
    }
}

fn done_by(bays: &[Worker]) -> u64 {
    let mut sum = 0u64;
    for bay in bays {
        sum = sum.saturating_add(bay.done);
    }
    sum
}

/// How much four bays have done that had 1 to 4 to do, and how many bays each of two drainers has seen end.
pub fn run_all<R: Threads + Wait + Sync>(
    threads: &R,
    alloc: Global,
) -> Option<(u64, usize, usize)> {
    match run_roles(threads, alloc, roles(alloc)) {
        Ok(ran) => Some((
            done_by(ran.bays.as_slice()),
            seen_by(&ran.log),
            seen_by(&ran.hook),
        )),
        Err(_) => None,
    }
}
