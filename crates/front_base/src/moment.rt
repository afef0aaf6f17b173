ghost use Rattle.std.specs.Prelude.{◌≡◌, ◌+◌, ◌<◌, ◌/◌, ◌≤◌, ◌++◌, ◌↔◌, pos, codes, length, take, IfOk, IfSome, IsSome, OnErr, OnOk};
ghost use Rattle.jiff.specs.Words.{epoch_day};
ghost use Rattle.front_base.specs.Moment as spec;

use crate::memory::NoMemory;
use crate::text::Text;
use jiff::Timestamp;
use jiff::civil::Date;
use jiff::tz::Offset;
use std::alloc::{AllocError, Global};
use std::marker::Model;

/// The first number of microseconds that is no moment: the start of the year 9999 in UTC.
pub const MOMENT_END: u64 = 253_370_764_800_000_000;

/// A moment in microseconds since the start of 1970 in UTC, below `MOMENT_END`. Contracts see the number.
#[derive(Clone, Copy, Debug, PartialEq, Eq, PartialOrd, Ord, Hash)]
pub struct Moment(u64);

impl Model for Moment {
    ghost use Rattle.std.specs.Prelude.{ℕ, ◌<◌};
    ghost use Rattle.front_base.specs.declared.moment.TheConstants.{MOMENT_END};

    ghost Value = { ℕ };

    ghost view = { λ m. m.0 };

    ghost invariant = { λ m. m.0 < MOMENT_END };

    ghost inverse = { λ n. record { 0 = n } };
}

impl Moment {
    pub fn new(micros: u64) -> Option<Moment>
        ensures valid { IsSome result ↔ (micros < MOMENT_END) }
        ensures value { IfSome result (λ m. m ≡ micros) }
    {
        if micros < MOMENT_END {
            Some(Moment(micros))
        } else {
            None
        }
    }

    /// The start of 1970.
    pub fn epoch() -> Moment
        ensures { result ≡ 0 }
    {
        Moment(0)
    }

    pub fn micros(self) -> u64
        ensures value { result ≡ self }
        ensures bound { result < MOMENT_END }
    {
        self.0
    }
}

const DAY_MICROS: u64 = 86_400_000_000;

// The date in UTC.
fn date_of(micros: u64) -> Date
    requires { micros < MOMENT_END }
    ensures { epoch_day result ≡ pos (micros / spec.day_micros) }
{
    match Timestamp::from_microsecond(micros as i64) {
        Ok(instant) => Offset::UTC.to_datetime(instant).date(),
        Err(_) => unreachable!(),
    }
}

// The year as a number without a sign.
fn year_of(date: Date, micros: u64) -> u16
    requires { epoch_day date ≡ pos (micros / spec.day_micros) }
    ensures value { pos result ≡ date.year }
    ensures since { 1970 ≤ result }
{
    let year = date.year();
    if year < 1970 {
        unreachable!();
    }
    year as u16
}

// A digit's character.
fn digit(value: u64) -> u8
    requires { value < 10 }
    ensures { result ≡ 48 + value }
{
    b'0' + value as u8
}

// The date, as `2024-06-19`.
fn date_bytes(year: u64, month: u64, day: u64) -> [u8; 10]
    requires year { year < 10_000 }
    requires month { month < 100 }
    requires day { day < 100 }
    ensures { result ≡ spec.date_text year month day }
{
    [
        digit(year / 1000),
        digit(year / 100 % 10),
        digit(year / 10 % 10),
        digit(year % 10),
        b'-',
        digit(month / 10),
        digit(month % 10),
        b'-',
        digit(day / 10),
        digit(day % 10),
    ]
}

// The time of day, as `17:30:05.000001`.
fn time_bytes(hour: u64, minute: u64, second: u64, fraction: u64) -> [u8; 15]
    requires hour { hour < 100 }
    requires minute { minute < 100 }
    requires second { second < 100 }
    requires fraction { fraction < 1_000_000 }
    ensures { result ≡ spec.time_text hour minute second fraction }
{
    [
        digit(hour / 10),
        digit(hour % 10),
        b':',
        digit(minute / 10),
        digit(minute % 10),
        b':',
        digit(second / 10),
        digit(second % 10),
        b'.',
        digit(fraction / 100_000),
        digit(fraction / 10_000 % 10),
        digit(fraction / 1000 % 10),
        digit(fraction / 100 % 10),
        digit(fraction / 10 % 10),
        digit(fraction % 10),
    ]
}

// The time of day, from the microseconds since midnight.
fn clock_bytes(micros: u64) -> [u8; 15]
    requires { micros < spec.day_micros }
    ensures { result ≡ spec.clock_text micros }
{
    let hour = micros / 3_600_000_000;
    let minute = micros / 60_000_000 % 60;
    let second = micros / 1_000_000 % 60;
    time_bytes(hour, minute, second, micros % 1_000_000)
}

// The date in UTC, as `2024-06-19`.
fn day_bytes(micros: u64) -> [u8; 10]
    requires { micros < MOMENT_END }
    ensures { result ≡ spec.day_text (micros / spec.day_micros) }
{
    let date = date_of(micros);
    let year = year_of(date, micros);
    let month = date.month() as u8;
    let day = date.day() as u8;
    date_bytes(year as u64, month as u64, day as u64)
}

// Writes the date, the time of day and what stands between and after them.
fn push_parts(out: &mut Vec<u8>, date: &[u8], clock: &[u8]) -> Result<(), AllocError>
    ensures ok { OnOk result (out.new.items ≡ out.old.items ++ (date.now ++ (codes "T" ++ (clock.now ++ codes "Z")))) }
    ensures begun { take (length out.old.items) out.new.items ≡ out.old.items }
{
    out.extend_from_slice(date)?;
    out.push(b'T')?;
    out.extend_from_slice(clock)?;
    out.push(b'Z')?;
    Ok(())
}

/// Writes the 27 characters of a moment after what is there, as `1970-01-01T00:00:00.000000Z` (RFC 3339, section 5.6).
#[tactic(auto, unfolding(crate::specs::Moment::moment_text))]
pub fn push_moment(out: &mut Vec<u8>, moment: Moment) -> Result<(), NoMemory>
    ensures ok { OnOk result (out.new.items ≡ out.old.items ++ spec.moment_text moment) }
    ensures kept { OnErr result (out.new.items ≡ out.old.items) }
{
    let micros = moment.micros();
    let date = day_bytes(micros);
    let clock = clock_bytes(micros % DAY_MICROS);
    let start = out.len();
    match push_parts(out, &date, &clock) {
        Ok(()) => Ok(()),
        Err(_) => {
            out.truncate(start);
            Err(NoMemory)
        }
    }
}

fn text_of(alloc: Global, moment: Moment) -> Result<Vec<u8>, NoMemory>
    ensures { IfOk result (λ text. text.items ≡ spec.moment_text moment) }
{
    let mut text = Vec::with_capacity(alloc, 27)?;
    push_moment(&mut text, moment)?;
    Ok(text)
}

/// The 27 characters of a moment, as a text of their own.
pub fn moment_text(alloc: Global, moment: Moment) -> Result<Text, NoMemory>
    ensures { IfOk result (λ text. text ≡ spec.moment_text moment) }
{
    let _micros = moment.micros();
    match String::from_utf8(text_of(alloc, moment)?) {
        Ok(text) => Ok(Text::new(text)),
        Err(_) => unreachable!(),
    }
}
