// Moments, as `1970-01-01T00:00:00.000000Z` (RFC 3339, section 5.6).
ghost use Rattle.std.specs.Prelude.{◌≡◌, length, true};
ghost use Rattle.stamp_text.specs.Dates as spec;

use crate::date::{days_before, days_until, four, two};
use front_base::Moment;

// The year is one of a moment, and the month is small.
fn has_date(text: &[u8]) -> bool
    requires { length text.now ≡ 27 }
    ensures { result ≡ spec.has_date text.now }
{
    let year = four(text, 0);
    let month = two(text, 5);
    1969 < year && year < 10_000 && 0 < month && month < 100
}

#[tactic(auto, unfolding(crate::specs::Dates::micros_of))]
fn micros_of(text: &[u8]) -> u64
    requires length { length text.now ≡ 27 }
    requires date { spec.has_date text.now ≡ true }
    ensures { result ≡ spec.micros_of text.now }
{
    let year = four(text, 0);
    let month = two(text, 5);
    let days = days_before(year) + days_until(year, month) + two(text, 8).saturating_sub(1);
    let fraction = two(text, 20) * 10000 + four(text, 22);
    let seconds = two(text, 11) * 3_600_000_000
        + two(text, 14) * 60_000_000
        + two(text, 17) * 1_000_000;
    days * 86_400_000_000 + seconds + fraction
}

/// The moment that a text of 27 characters says. What stands between its digits isn't looked at.
#[tactic(auto, unfolding(crate::specs::Dates::moment_of))]
pub fn moment_of(text: &[u8]) -> Option<Moment>
    ensures { result ≡ spec.moment_of text.now }
{
    if text.len() == 27 && has_date(text) {
        Moment::new(micros_of(text))
    } else {
        None
    }
}
