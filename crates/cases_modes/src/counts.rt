// What came of the lines that were offered to a sink.
use front_ports::MemClock;
use queue_drain::DrainEnd;
use truncate_backend::{TryAnswer, TryNote};

#[derive(Clone, Copy, Debug, Drop)]
pub struct Counts {
    pub offered: u64,
    pub written: u64,
    /// Lines of a sink that is written to at once, whose tries weren't Done.
    pub failed: u64,
    /// Lines of batches whose tries weren't Done.
    pub lost: u64,
    pub full: u64,
}

impl Counts {
    /// How many lines something came of.
    pub fn sum(self) -> u64 {
        self.written
            .saturating_add(self.failed)
            .saturating_add(self.lost)
            .saturating_add(self.full)
    }
}

/// Those of a sink in mode batch.
pub fn batched<S>(offered: u64, end: &DrainEnd<S, MemClock>) -> Counts {
    Counts {
        offered,
        written: end.written,
        failed: 0,
        lost: end.lost,
        full: end.fulls,
    }
}

/// Those of a sink that is written to at once.
pub fn at_once(offered: u64, tries: &[TryNote]) -> Counts {
    let mut counts = Counts {
        offered,
        written: 0,
        failed: 0,
        lost: 0,
        full: 0,
    };
    for note in tries {
        let lines = u64::from(note.lines);
        match note.answer {
            TryAnswer::Done => counts.written = counts.written.saturating_add(lines),
            _ => counts.failed = counts.failed.saturating_add(lines),
        }
    }
    counts
}
