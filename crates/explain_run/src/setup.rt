use audit_core::Settings;
use front_base::Moment;

/// What a run is told.
#[derive(Drop)]
pub struct Setup {
    /// By what its requests are judged.
    pub settings: Settings,
    /// What the clock shows, for all of the run.
    pub moment: Moment,
    /// Whether one line is written of each request that says where it goes, in the place of its audit lines.
    pub routes: bool,
}
