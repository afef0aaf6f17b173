use crate::head_end::{Place, line_len, place_after};
use crate::limits::TcpLimits;
use crate::pace::Pace;

/// How one reply comes.
#[derive(Clone, Copy, Drop)]
pub(crate) struct ReplyScan {
    place: Place,
    pace: Pace,
    // For how many milliseconds no byte of the body has come.
    silent: u64,
}

impl ReplyScan {
    pub(crate) fn new() -> ReplyScan {
        ReplyScan {
            place: Place::Start,
            pace: Pace::new(),
            silent: 0,
        }
    }

    /// Whether its head has come.
    pub(crate) fn is_in_body(&self) -> bool {
        match self.place {
            Place::Body => true,
            _ => false,
        }
    }

    // Takes the first bytes of a head, and answers how many these are: no byte behind its end is looked at.
    fn take_some(&mut self, bytes: &[u8]) -> usize {
        let Some(byte) = bytes.first() else {
            return 0;
        };
        self.place = place_after(self.place, *byte);
        match self.place {
            Place::InLine => line_len(bytes),
            Place::Body => bytes.len(),
            Place::Start | Place::LineEnd | Place::CarriageReturn => 1,
        }
    }

    fn take(&mut self, bytes: &[u8]) {
        let mut rest = bytes;
        // Each turn takes one byte at least.
        for _ in 0..bytes.len() {
            let taken = self.take_some(rest);
            if rest.len() <= taken {
                return;
            }
            rest = &rest[taken..];
        }
    }

    /// A read waited so many milliseconds for so many bytes of the body. Whether none has come for so long.
    pub(crate) fn is_stalled(&mut self, count: usize, waited: u64, most: u64) -> bool {
        self.silent = if count > 0 {
            0
        } else {
            self.silent.saturating_add(waited)
        };
        self.silent >= most
    }

    /// A read waited so many milliseconds for these bytes. Whether the backend is too slow with the head, or with the body.
    pub(crate) fn is_late(&mut self, bytes: &[u8], waited: u64, limits: &TcpLimits) -> bool {
        let in_body = self.is_in_body();
        let late = self.pace.is_late(
            in_body,
            bytes.len(),
            waited,
            limits.response_header_timeout,
            limits,
        );
        if in_body {
            return late;
        }
        self.take(bytes);
        late && !self.is_in_body()
    }
}
