use front_plants::PlantFault;
use serve_roles::BayEnd;
use sink_lanes::SinkEnd;

/// How a run ended.
#[derive(Clone, Copy, Debug, PartialEq, Eq)]
pub enum RunStatus {
    /// Every bay stopped since its door gave no more connections.
    Done,
    /// This call of the plant failed, and no bay served.
    Unopened(PlantFault),
    /// A bay's door failed.
    DoorFault,
    /// Memory ran out before any bay served.
    NoMemory,
    /// No door failed, and a bay had no number for one more request.
    NumbersSpent,
}

/// What a run leaves.
#[derive(Drop)]
pub struct Ended<R, L, W, H, K, Y, D> {
    pub status: RunStatus,
    /// In their order; none where nothing ran.
    pub bays: Vec<BayEnd<R, L, K, Y, D>>,
    pub log: SinkEnd<W, K>,
    pub hook: SinkEnd<H, K>,
}
