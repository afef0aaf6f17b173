ghost use Rattle.std.specs.Prelude.{◌≡◌, ◌↔◌, ◌<◌, IsTrue};
ghost use Rattle.tcp_ports.specs.Rate.{debt_after, saturating_product};

/// How far a peer is behind the rate that it has to keep. What it moves faster isn't to its credit later.
#[derive(Clone, Copy, Drop)]
pub(crate) struct RateFloor {
    // In thousandths of a byte.
    debt: u64,
}

impl RateFloor {
    pub(crate) fn new() -> RateFloor
        ensures { result.debt ≡ 0 }
    {
        RateFloor { debt: 0 }
    }

    /// A call waited so many milliseconds and so many bytes moved. Whether the peer is now behind by more than it may be.
    pub(crate) fn falls_behind(
        &mut self,
        bytes: u64,
        waited: u64,
        min_rate: u64,
        stall: u64,
    ) -> bool
        ensures debt { self.new.debt ≡ debt_after self.old.debt bytes waited min_rate }
        ensures behind { IsTrue result ↔ (saturating_product stall min_rate < self.new.debt) }
    {
        self.debt = self
            .debt
            .saturating_add(waited.saturating_mul(min_rate))
            .saturating_sub(bytes.saturating_mul(1000));
        self.debt > stall.saturating_mul(min_rate)
    }
}
