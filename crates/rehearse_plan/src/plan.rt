ghost use Rattle.std.specs.Prelude.{◌≤◌, ◌<◌};
ghost use Rattle.rehearse_plan.specs.declared.plan.TheConstants.{MOST_REHEARSED};

/// The most requests of a rehearsal.
pub const MOST_REHEARSED: u32 = 20_000;

/// How many bays serve the requests that words ask for.
pub const BAYS: u16 = 4;

/// What is rehearsed.
#[derive(Clone, Copy, Debug, PartialEq, Eq)]
pub struct Rehearsal {
    /// The kind of the first request, counted on from 8 as from 0.
    pub start: u64,
    /// How many requests there are, from 1 to `MOST_REHEARSED`.
    pub count: u32,
    /// How many bays serve them, from 1 to 64. The requests go round the bays.
    pub bays: u16,
    ghost few: { count ≤ MOST_REHEARSED },
    ghost some: { 0 < bays },
    ghost within: { bays ≤ 64 },
}
