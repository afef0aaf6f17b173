use crate::limits::TcpLimits;
use crate::rate::RateFloor;

/// How slowly the head or the body of one message comes.
#[derive(Clone, Copy, Drop)]
pub(crate) struct Pace {
    // How long reads waited for the head, in milliseconds.
    waited: u64,
    body: RateFloor,
}

impl Pace {
    pub(crate) fn new() -> Pace {
        Pace {
            waited: 0,
            body: RateFloor::new(),
        }
    }

    /// A read waited so many milliseconds for so many bytes of a head, or of a body. Whether the peer is too slow with it.
    pub(crate) fn is_late(
        &mut self,
        in_body: bool,
        count: usize,
        waited: u64,
        header_timeout: u64,
        limits: &TcpLimits,
    ) -> bool {
        if in_body {
            return self.body.falls_behind(
                count as u64,
                waited,
                limits.min_rate,
                limits.stall_timeout,
            );
        }
        self.waited = self.waited.saturating_add(waited);
        self.waited > header_timeout
    }
}
