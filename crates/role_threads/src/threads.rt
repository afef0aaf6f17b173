ghost use Rattle.std.specs.Prelude.{◌<◌, ℕ, IfOk, length, slice_index_or};
ghost use Rattle.role_threads.specs.Ran.{RanOne, RanAll};

use crate::role::{AnyRole, Role, Roles, list_roles, part_roles};
use front_base::NoMemory;
use std::alloc::Global;
use std::sync::atomic::AtomicUsize;
use std::thread;
use std::thread::Threads;

// Each in a thread of its own, to its end.
fn run_each<T: Threads + Sync, B: Role<T> + Send, G: Role<T> + Send, H: Role<T> + Send>(
    rt: &T,
    roles: &mut [AnyRole<B, G, H>],
    bays: usize,
)
    ensures { (i : ℕ) (d : _) → i < length roles.old
        → RanOne B.Role.ran G.Role.ran H.Role.ran (slice_index_or roles.old i d) (slice_index_or roles.new i d) }
{
    let count = roles.len();
    if count == 0 {
        return;
    }
    let ended = AtomicUsize::new(0);
    let share = &ended;
    thread::for_each_mut(rt, roles, count, &|_, role| role.run(rt, share, bays));
}

/// Runs each bay and each drainer in a thread of its own, until all have come to their end. Where memory runs out, nothing ran.
pub fn run_roles<
    T: Threads + Sync,
    B: Role<T> + Drop + Send,
    G: Role<T> + Drop + Send,
    H: Role<T> + Drop + Send,
>(rt: &T, alloc: Global, roles: Roles<B, G, H>) -> Result<Roles<B, G, H>, NoMemory>
    ensures { IfOk result (RanAll B.Role.ran G.Role.ran H.Role.ran roles) }
{
    let bays = roles.bays.len();
    let mut all = list_roles(alloc, roles)?;
    let room = Vec::with_capacity(alloc, all.len())?;
    run_each(rt, all.as_mut_slice(), bays);
    Ok(part_roles(all, room))
}
