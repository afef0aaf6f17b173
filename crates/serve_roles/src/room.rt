ghost use Rattle.std.specs.Prelude.{◌≡◌, ◌≤◌, [], IfOk, vec_capacity};

use crate::bay_end::EndedBays;
use front_base::NoMemory;
use std::alloc::Global;
use std::sync::Wait;

/// The memory that taking bays apart needs, so that nothing is lost for want of it afterwards.
#[derive(Drop)]
pub struct EndRoom<R, L, W, H, T: Wait + Copy + Drop, K, Y, D> {
    pub(crate) bays: usize,
    pub(crate) empty: EndedBays<R, L, W, H, T, K, Y, D>,
    ghost none: { (empty.ends.items ≡ []) × (empty.logs.items ≡ []) × (empty.hooks.items ≡ []) },
    ghost room: { (bays ≤ vec_capacity empty.ends) × (bays ≤ vec_capacity empty.logs) × (bays ≤ vec_capacity empty.hooks) },
}

impl<R: Drop, L: Drop, W: Drop, H: Drop, T: Wait + Copy + Drop, K: Drop, Y: Drop, D: Drop> EndRoom<
    R,
    L,
    W,
    H,
    T,
    K,
    Y,
    D,
> {
    ghost use Rattle.serve_roles.specs.Rooms.{room_for};

    /// Room for so many bays.
    pub fn new(alloc: Global, bays: usize) -> Result<EndRoom<R, L, W, H, T, K, Y, D>, NoMemory>
        ensures { IfOk result (λ room. room_for room ≡ bays) }
    {
        Ok(EndRoom {
            bays,
            empty: EndedBays {
                ends: Vec::with_capacity(alloc, bays)?,
                logs: Vec::with_capacity(alloc, bays)?,
                hooks: Vec::with_capacity(alloc, bays)?,
            },
        })
    }
}
