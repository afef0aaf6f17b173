// Digits of a text, and days of the Gregorian calendar.
ghost use Rattle.std.specs.Prelude.{◌≡◌, ◌<◌, ◌≤◌, ◌+◌, length, pos};
ghost use Rattle.jiff_core.specs.Calendar.{days_in_year, days_in_month, is_leap_year};
ghost use Rattle.stamp_text.specs.Dates as spec;

fn digit(text: &[u8], at: usize) -> u64
    requires { at < length text.now }
    ensures value { result ≡ spec.digit text.now at }
    ensures small { result < 256 }
{
    u64::from(text[at].saturating_sub(b'0'))
}

pub fn two(text: &[u8], at: usize) -> u64
    requires { at + 1 < length text.now }
    ensures value { result ≡ spec.two text.now at }
    ensures small { result < 3000 }
{
    digit(text, at) * 10 + digit(text, at + 1)
}

pub fn four(text: &[u8], at: usize) -> u64
    requires { at + 3 < length text.now }
    ensures value { result ≡ spec.four text.now at }
    ensures small { result < 400000 }
{
    two(text, at) * 100 + two(text, at + 2)
}

fn is_leap(year: u64) -> bool
    ensures { result ≡ is_leap_year (pos year) }
{
    year % 4 == 0 && (year % 100 != 0 || year % 400 == 0)
}

fn year_len(year: u64) -> u64
    ensures value { result ≡ days_in_year (pos year) }
    ensures small { result < 367 }
{
    if is_leap(year) { 366 } else { 365 }
}

fn month_len(year: u64, month: u64) -> u64
    ensures value { result ≡ days_in_month (pos year) month }
    ensures small { result < 32 }
{
    match month {
        2 => { if is_leap(year) { 29 } else { 28 } }
        4 | 6 | 9 | 11 => 30,
        _ => 31,
    }
}

// The days of the years before this one, from 1970 on.
pub fn days_before(year: u64) -> u64
    requires since { 1970 ≤ year }
    requires before { year < 10_000 }
    ensures value { result ≡ spec.years_before year }
    ensures small { result < 3_000_000 }
{
    let mut days = 0;
    for y in 1970..year {
        days += year_len(y);
    }
    days
}

// The days of the months before this one.
pub fn days_until(year: u64, month: u64) -> u64
    requires first { 1 ≤ month }
    requires last { month < 100 }
    ensures value { result ≡ spec.months_before year month }
    ensures small { result < 3_000_000 }
{
    let mut days = 0;
    for m in 1..month {
        days += month_len(year, m);
    }
    days
}
