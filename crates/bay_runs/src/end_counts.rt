ghost use Rattle.std.specs.Prelude.{◌≡◌};
ghost use Rattle.bay_runs.specs.Counts as spec;

use http_edge::End;
use session_core::ConnEnd;

/// How many connections ended in each way. A count stays at the last value of its type.
#[derive(Clone, Copy, Debug, PartialEq, Eq)]
pub struct EndCounts {
    pub ended: u64,
    pub asked: u64,
    pub bad_head: u64,
    pub head_too_large: u64,
    pub bad_framing: u64,
    pub body_too_large: u64,
    pub cut_short: u64,
    pub read_fault: u64,
    pub write_fault: u64,
    pub backend_cut: u64,
    pub stream_spent: u64,
    pub numbers_spent: u64,
    pub no_memory: u64,
}

// One more.
fn add_one(count: &mut u64)
    ensures { count.new ≡ spec.one_more count.old }
{
    *count = count.saturating_add(1);
}

impl EndCounts {
    /// None ended.
    pub fn new() -> EndCounts
        ensures { result ≡ spec.no_ends }
    {
        EndCounts {
            ended: 0,
            asked: 0,
            bad_head: 0,
            head_too_large: 0,
            bad_framing: 0,
            body_too_large: 0,
            cut_short: 0,
            read_fault: 0,
            write_fault: 0,
            backend_cut: 0,
            stream_spent: 0,
            numbers_spent: 0,
            no_memory: 0,
        }
    }

    fn count_stop(&mut self, end: End)
        ensures { self.new ≡ spec.stop_counted self.old end }
    {
        match end {
            End::Ended => add_one(&mut self.ended),
            End::Asked => add_one(&mut self.asked),
            End::BadHead => add_one(&mut self.bad_head),
            End::HeadTooLarge => add_one(&mut self.head_too_large),
            End::BadFraming => add_one(&mut self.bad_framing),
            End::BodyTooLarge => add_one(&mut self.body_too_large),
            End::CutShort => add_one(&mut self.cut_short),
        }
    }

    /// Counts a connection that ended so.
    pub fn count(&mut self, end: ConnEnd)
        ensures { self.new ≡ spec.counted self.old end }
    {
        match end {
            ConnEnd::Stopped(end) => self.count_stop(end),
            ConnEnd::ReadFault => add_one(&mut self.read_fault),
            ConnEnd::WriteFault => add_one(&mut self.write_fault),
            ConnEnd::BackendCut => add_one(&mut self.backend_cut),
            ConnEnd::StreamSpent => add_one(&mut self.stream_spent),
            ConnEnd::NumbersSpent => add_one(&mut self.numbers_spent),
            ConnEnd::NoMemory => add_one(&mut self.no_memory),
        }
    }
}
