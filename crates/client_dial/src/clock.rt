use std::rt;
use std::time::Duration;

/// The milliseconds of a clock that never goes back, 0 where it can't be read.
pub(crate) fn millis_now(rt: &impl rt::Clock) -> u64 {
    match rt.monotonic() {
        Ok(time) => u64::try_from(time.as_millis()).unwrap_or(u64::MAX),
        Err(_) => 0,
    }
}

/// How long it is until a moment of that clock, in milliseconds, or none once it has passed.
pub(crate) fn rest_until(rt: &impl rt::Clock, until: u64) -> Option<Duration> {
    let rest = until.saturating_sub(millis_now(rt));
    if rest == 0 {
        return None;
    }
    Some(Duration::from_millis(rest))
}
