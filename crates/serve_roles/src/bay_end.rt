use any_lane::AnyLane;
use bay_runs::{BayStop, EndCounts};
use std::sync::Wait;

/// What a bay leaves, but for its lanes.
#[derive(Drop)]
pub struct BayEnd<R, L, K, Y, D> {
    /// Its number.
    pub bay: u16,
    /// The word that its audit IDs began with.
    pub boot: u64,
    /// How many requests it numbered.
    pub number: u64,
    /// How many lines it offered to the log's lane, and to the webhook's.
    pub log_lines: u64,
    pub hook_lines: u64,
    /// How its connections ended.
    pub counts: EndCounts,
    pub stop: BayStop,
    pub door: D,
    pub routes: R,
    pub dial: L,
    pub clock: K,
    pub diary: Y,
}

/// What bays leave, each list in the order of the bays.
#[derive(Drop)]
pub struct EndedBays<R, L, W, H, T: Wait + Copy + Drop, K, Y, D> {
    pub ends: Vec<BayEnd<R, L, K, Y, D>>,
    pub logs: Vec<AnyLane<W, T>>,
    pub hooks: Vec<AnyLane<H, T>>,
}
