ghost use Rattle.std.specs.Prelude.{◌≡◌, None};
ghost use Rattle.tcp_plant.specs.Handles.{clock_last, clock_rests};

use front_base::{MOMENT_END, Moment};
use front_ports::Clock;
use std::sync::atomic::{AtomicU64, Ordering};
use std::time::Duration;
use std::{rt, thread};

/// The system's clock. Where the system's time goes back, it stands until that time has passed.
#[derive(Drop)]
pub struct SystemClock<'b, R> {
    rt: &'b R,
    last: Moment,
    rests: u64,
    // Where a drainer's first rest is counted, until it is.
    drainers: Option<&'b AtomicU64>,
}

impl<'b, R: rt::Clock> SystemClock<'b, R> {
    pub fn new(rt: &'b R) -> SystemClock<'b, R>
        ensures last { clock_last result ≡ 0 }
        ensures rests { clock_rests result ≡ 0 }
    {
        SystemClock {
            rt,
            last: Moment::epoch(),
            rests: 0,
            drainers: None,
        }
    }

    /// The clock of a drainer, which is counted once it rests: its thread runs then.
    pub(crate) fn of_drainer(rt: &'b R, drainers: &'b AtomicU64) -> SystemClock<'b, R>
        ensures last { clock_last result ≡ 0 }
        ensures rests { clock_rests result ≡ 0 }
    {
        SystemClock {
            rt,
            last: Moment::epoch(),
            rests: 0,
            drainers: Some(drainers),
        }
    }
}

// The system's time, the start of 1970 where it can't be read, and the greatest moment at most.
fn system_moment(rt: &impl rt::Clock) -> Moment {
    let micros = match rt.since_1970() {
        Ok(time) => u64::try_from(time.as_micros()).unwrap_or(u64::MAX),
        Err(_) => 0,
    };
    match Moment::new(micros.min(MOMENT_END - 1)) {
        Some(moment) => moment,
        None => unreachable!(),
    }
}

impl<'b, R: rt::Clock> Clock for SystemClock<'b, R> {
    ghost last = { clock_last };

    ghost given = { λ _. None };

    ghost rests = { clock_rests };

    fn now(&mut self) -> Moment {
        let moment = system_moment(self.rt);
        if self.last.micros() < moment.micros() {
            self.last = moment;
        }
        self.last
    }

    /// Sleeps for a millisecond.
    fn rest(&mut self) {
        if let Some(drainers) = self.drainers {
            drainers.fetch_add(1, Ordering::SeqCst);
            self.drainers = None;
        }
        self.rests = self.rests.saturating_add(1);
        thread::sleep(self.rt, Duration::from_millis(1));
    }
}
