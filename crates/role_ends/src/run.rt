ghost use Rattle.std.specs.Prelude.{◌<◌, ℕ, length, slice_index_or};
ghost use Rattle.role_threads.specs.Lists.{AllPairs, IfBoth};
ghost use Rattle.role_ends.specs.Ended.{CanEnd, EndedBy};

use role_threads::{Role, Roles};
use std::sync::atomic::AtomicUsize;
use std::thread;
use std::thread::{Threads, join};

// Each bay in a thread of its own, to its end.
fn run_each<T: Threads + Sync, B: Role<T> + Send>(rt: &T, bays: &mut [B], ended: &AtomicUsize)
    ensures { (i : ℕ) (d : _) → i < length bays.old → B.Role.ran (slice_index_or bays.old i d) (slice_index_or bays.new i d) }
{
    let count = bays.len();
    if count == 0 {
        return;
    }
    thread::for_each_mut(rt, bays, count, &|_, bay| bay.run(rt, ended, count));
}

fn run_bays<T: Threads + Sync, B: Role<T> + Send>(
    rt: &T,
    mut bays: Vec<B>,
    ended: &AtomicUsize,
) -> Vec<B>
    ensures { AllPairs B.Role.ran bays.items result.items }
{
    run_each(rt, bays.as_mut_slice(), ended);
    bays
}

// A drainer to its end, if there is one.
fn run_drain<T, G: Role<T>>(rt: &T, drain: Option<G>, ended: &AtomicUsize, bays: usize) -> Option<G>
    ensures { IfBoth G.Role.ran drain result }
{
    match drain {
        Some(mut drain) => {
            drain.run(rt, ended, bays);
            Some(drain)
        }
        None => None,
    }
}

// Bays and the log's drainer, and what comes of them.
fn run_bays_and_log<
    T: Threads + Sync,
    B: Role<T> + Drop + Send,
    G: Role<T> + Drop + Send,
    A,
    E: FnOnce(Vec<B>, Option<G>) -> A,
>(rt: &T, bays: Vec<B>, log: Option<G>, ended: &AtomicUsize, end: E) -> A
    requires { CanEnd B.Role.ran G.Role.ran (E.pre end) bays.items log }
    ensures { EndedBy B.Role.ran G.Role.ran (E.post end) bays.items log result }
{
    let count = bays.len();
    let (log, bays) = join(
        rt,
        move || run_drain(rt, log, ended, count),
        move || run_bays(rt, bays, ended),
    );
    end(bays, log)
}

/// Runs each bay and each drainer in a thread of its own, until all have come to their end. Once bays and the log's drainer have,
/// `end` is given these, whether the webhook's drainer has ended or not. No memory is taken.
pub fn run_and_end<
    T: Threads + Sync,
    B: Role<T> + Drop + Send,
    G: Role<T> + Drop + Send,
    H: Role<T> + Drop + Send,
    A,
    E: FnOnce(Vec<B>, Option<G>) -> A + Drop,
>(rt: &T, roles: Roles<B, G, H>, end: E) -> (A, Option<H>)
    requires { CanEnd B.Role.ran G.Role.ran (E.pre end) roles.bays.items roles.log }
    ensures ended { EndedBy B.Role.ran G.Role.ran (E.post end) roles.bays.items roles.log result.0 }
    ensures hook { IfBoth H.Role.ran roles.hook result.1 }
{
    let Roles { bays, log, hook } = roles;
    let count = bays.len();
    let ended = AtomicUsize::new(0);
    let share = &ended;
    let (hook, left) = join(
        rt,
        move || run_drain(rt, hook, share, count),
        move || -> A
            requires { CanEnd B.Role.ran G.Role.ran (E.pre end) bays.items log }
            ensures { EndedBy B.Role.ran G.Role.ran (E.post end) bays.items log result }
        { run_bays_and_log(rt, bays, log, share, end) },
    );
    (left, hook)
}
