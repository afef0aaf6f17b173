use crate::run_and_end;
use role_threads::{Role, Roles};
use std::sync::Wait;
use std::sync::atomic::{AtomicUsize, Ordering};

// A bay that counts itself.
#[derive(Drop)]
struct Worker {
    todo: u64,
    done: u64,
}

impl<T> Role<T> for Worker {
    ghost use Rattle.std.specs.Prelude.{◌≡◌};

    ghost ran = { λ a b. b.done ≡ a.todo };

    fn run(&mut self, _rt: &T, ended: &AtomicUsize, _bays: usize) {
        self.done = self.todo;
        ended.fetch_add(1, Ordering::SeqCst);
    }
}

fn wait_for<T: Wait>(rt: &T, count: &AtomicUsize, least: usize) -> usize {
    for _ in rt.forever() {
        let now = count.load(Ordering::SeqCst);
        if now >= least {
            return now;
        }
        std::thread::yield_now();
    }
    unreachable!()
}

// The log's drainer, which sees how many bays have ended.
#[derive(Drop)]
struct Log {
    seen: usize,
}

impl<T: Wait> Role<T> for Log {
    ghost use Rattle.std.specs.Prelude.{⊤};

    ghost ran = { λ _ _. ⊤ };

    fn run(&mut self, rt: &T, ended: &AtomicUsize, bays: usize) {
        self.seen = wait_for(rt, ended, bays);
    }
}

// The webhook's drainer: it says that all bays have ended, and then hangs until the log's end is made.
#[derive(Drop)]
struct Hook<'t> {
    turn: &'t AtomicUsize,
    seen: usize,
}

impl<'t, T: Wait> Role<T> for Hook<'t> {
    ghost use Rattle.std.specs.Prelude.{⊤};

    ghost ran = { λ _ _. ⊤ };

    fn run(&mut self, rt: &T, ended: &AtomicUsize, bays: usize) {
        self.seen = wait_for(rt, ended, bays);
        self.turn.store(1, Ordering::SeqCst);
        wait_for(rt, self.turn, 2);
    }
}

// Makes the end once the webhook's drainer has seen that of all bays, and lets it go on. What bays did, and what the log's drainer saw.
fn end_all<T: Wait>(
    rt: &T,
    turn: &AtomicUsize,
    bays: Vec<Worker>,
    log: Option<Log>,
) -> (u64, usize) {
    wait_for(rt, turn, 1);
    turn.store(2, Ordering::SeqCst);
    let mut done = 0u64;
    for bay in bays {
        done = done.saturating_add(bay.done);
    }
    (done, log.map_or(0, |log| log.seen))
}

#[test]
fn the_log_ends_while_the_webhook_hangs(rt: HostRuntime) {
    let mut bays = Vec::new(rt.alloc());
    for todo in 1..5u64 {
        let _ = bays.push(Worker { todo, done: 0 });
    }
    let turn = AtomicUsize::new(0);
    let share = &turn;
    let roles = Roles {
        bays,
        log: Some(Log { seen: 0 }),
        hook: Some(Hook {
            turn: share,
            seen: 0,
        }),
    };
    let (left, hook) = run_and_end(&rt, roles, |bays, log| end_all(&rt, share, bays, log));
    assert_eq!(rt; left, (10, 4));
    assert_eq!(rt; hook.map_or(0, |hook| hook.seen), 4);
}
