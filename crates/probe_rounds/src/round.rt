use front_base::Moment;

/// A round of probes.
#[derive(Clone, Copy, Debug)]
pub struct Round {
    /// From 1.
    pub number: u32,
    /// When it began.
    pub moment: Moment,
}
