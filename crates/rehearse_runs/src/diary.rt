ghost use Rattle.std.specs.Prelude.{◌≡◌, List};
ghost use Rattle.session_core.specs.declared.exchange.Exchange.{Exchange};

use session_core::{Exchange, MemDiary};

/// A diary that hands out what was noted, as the one in memory does.
pub trait ReadDiary {
    /// All that was noted, in order.
    ghost told: { Self → List Exchange };

    fn exchanges(&self) -> &[Exchange]
        ensures { result.now ≡ told self.now };
}

impl ReadDiary for MemDiary {
    ghost use Rattle.session_core.specs.Diaries.{noted};

    ghost told = { noted };

    fn exchanges(&self) -> &[Exchange] {
        MemDiary::exchanges(self)
    }
}
