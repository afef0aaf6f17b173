use std::rt;
use std::time::Duration;

/// The milliseconds of a clock that never goes back, 0 where it can't be read.
pub(crate) fn millis_now(rt: &impl rt::Clock) -> u64 {
    match rt.monotonic() {
        Ok(time) => u64::try_from(time.as_millis()).unwrap_or(u64::MAX),
        Err(_) => 0,
    }
}

/// So many milliseconds, and one at least, since a socket takes a timeout of 0 for none.
pub(crate) fn timeout_of(millis: u64) -> Duration {
    Duration::from_millis(millis.max(1))
}
