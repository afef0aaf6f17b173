// When something is said of lines that were lost: at most once in a second.
ghost use Rattle.std.specs.Prelude.{◌≡◌, ◌≤◌, ◌+◌, IfSome, false};
ghost use Rattle.tcp_plant.specs.Notices.{IsKept, IsSaid};

use std::fmt;
use std::fmt::{Display, Formatter};

/// Between two notices of one sink, in milliseconds.
pub const NOTICE_INTERVAL: u64 = 1000;

/// What became of lines, since the last notice.
#[derive(Clone, Copy, Debug, PartialEq, Eq)]
pub struct Losses {
    /// Lines of tries that failed.
    pub lost: u64,
    /// Lines that weren't taken since the buffer was full.
    pub full: u64,
    /// Events whose line was too large.
    pub large: u64,
}

impl Losses {
    pub const NONE: Losses = Losses {
        lost: 0,
        full: 0,
        large: 0,
    };

    fn are_some(self) -> bool {
        self.lost > 0 || self.full > 0 || self.large > 0
    }

    pub(crate) fn add(&mut self, more: Losses) {
        self.lost = self.lost.saturating_add(more.lost);
        self.full = self.full.saturating_add(more.full);
        self.large = self.large.saturating_add(more.large);
    }
}

/// Why a try failed.
#[derive(Clone, Copy, Debug, PartialEq, Eq)]
pub enum Why {
    /// In the words of the system.
    Reason(&'static str),
    /// By the status of the reply.
    Status(u16),
}

impl Display for Why {
    fn fmt<W: fmt::Write>(&self, f: &mut Formatter<W>) -> fmt::Result {
        match self {
            Why::Reason(reason) => write!(f, "{reason}"),
            Why::Status(status) => write!(f, "answered {status}"),
        }
    }
}

/// A notice: what was lost since the one before it, and whether lines are written again.
#[derive(Clone, Copy, Debug, PartialEq, Eq)]
pub struct Notice {
    pub losses: Losses,
    /// Why the last try that failed did.
    pub why: Why,
    pub well: bool,
}

/// What is still to be said of a sink.
#[derive(Clone, Copy, Debug, Drop)]
pub struct Notices {
    pub losses: Losses,
    pub why: Why,
    // Whether its last try failed, and whether that was said.
    pub failing: bool,
    pub said: bool,
    // The moment before which nothing is said.
    pub next: u64,
}

impl Notices {
    pub fn new() -> Notices {
        Notices {
            losses: Losses::NONE,
            why: Why::Reason("failed"),
            failing: false,
            said: false,
            next: 0,
        }
    }

    /// Whether there is anything to say, now or later.
    pub(crate) fn are_pending(&self) -> bool {
        self.losses.are_some() || self.failing || self.said
    }

    /// What is to be said now, where there is something and the last notice was long enough ago. Milliseconds.
    pub fn due(&mut self, now: u64) -> Option<Notice>
        ensures rate { IfSome result (λ notice. (self.old.next ≤ now) × (now + 1000 ≤ self.new.next)) }
        ensures said { IfSome result (IsSaid self.old self.new) }
        ensures kept { IsKept result self.old self.new }
    {
        let well = !self.failing && (self.said || self.losses.lost > 0);
        if now < self.next || now > u64::MAX - NOTICE_INTERVAL {
            return None;
        }
        if !self.losses.are_some() && !well {
            return None;
        }
        let notice = Notice {
            losses: self.losses,
            why: self.why,
            well,
        };
        self.losses = Losses::NONE;
        self.said = self.failing;
        self.next = now + NOTICE_INTERVAL;
        Some(notice)
    }
}
