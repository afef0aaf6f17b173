// The age of an object.
ghost use Rattle.std.specs.Prelude.{◌≡◌, IfOk, string_bytes};
ghost use Rattle.jiff.specs.Words.{parse_timestamp, timestamp_view};
ghost use Rattle.serde_json.specs.View.{view};
ghost use Rattle.service_tables.specs.Ages as spec;

use apiservice_columns::duration_text;
use front_base::Moment;
use jiff::error::Bound;
use jiff::{Error, Timestamp};
use json_value::{inner, text_in};
use serde_json::Value;
use std::alloc::{AllocError, Global};

// The number, where it isn't below zero.
#[tactic(auto, using(crate::proofs::AgeLemmas::natural_below, crate::proofs::AgeLemmas::natural_from_zero))]
fn natural(number: i64) -> Option<u64>
    ensures { result ≡ spec.natural number }
{
    if number < 0 {
        None
    } else {
        Some(number.unsigned_abs())
    }
}

fn micros_of(created: Timestamp) -> Option<u64>
    ensures { result ≡ spec.micros_of created.nanosecond }
{
    natural(created.as_microsecond())
}

// How long ago something was that is so many microseconds ahead.
fn ahead(alloc: Global, micros: u64) -> Result<String, AllocError>
    ensures { IfOk result (λ text. string_bytes text ≡ spec.ahead micros) }
{
    if micros < 2_000_000 {
        String::from_str(alloc, "0s")
    } else {
        String::from_str(alloc, "<invalid>")
    }
}

#[tactic(auto, unfolding(crate::specs::Ages::since))]
fn since(alloc: Global, created: u64, now: u64) -> Result<String, AllocError>
    ensures { IfOk result (λ text. string_bytes text ≡ spec.since now created) }
{
    if now < created {
        ahead(alloc, created - now)
    } else {
        duration_text(alloc, (now - created) / 1_000_000)
    }
}

fn since_any(alloc: Global, created: Option<u64>, now: Moment) -> Result<String, AllocError>
    ensures { IfOk result (λ text. string_bytes text ≡ spec.since_any now created) }
{
    match created {
        Some(created) => since(alloc, created, now.micros()),
        None => String::from_str(alloc, "<unknown>"),
    }
}

fn read_time(text: &str) -> Result<Timestamp, Error>
    ensures { timestamp_view result ≡ parse_timestamp text.now }
{
    text.parse()
}

fn is_instant(bound: Bound) -> bool
    ensures { result ≡ spec.is_instant bound }
{
    match bound {
        Bound::UnixEpochSeconds => true,
        _ => false,
    }
}

fn is_past_an_end(error: Error) -> bool
    ensures { result ≡ spec.is_past_an_end error }
{
    match error {
        Error::Range(bound) => is_instant(bound),
        _ => false,
    }
}

fn has_minus(text: &[u8]) -> bool
    ensures { result ≡ spec.has_minus text.now }
{
    text.starts_with("-".as_bytes())
}

// The age by a text that gives no instant.
fn unread(alloc: Global, text: &str, error: Error) -> Result<String, AllocError>
    ensures { IfOk result (λ age. string_bytes age ≡ spec.unread text.now error) }
{
    if is_past_an_end(error) && !has_minus(text.as_bytes()) {
        return String::from_str(alloc, "<invalid>");
    }
    String::from_str(alloc, "<unknown>")
}

#[tactic(auto, unfolding(crate::specs::Ages::age_at))]
fn age_of(alloc: Global, now: Moment, text: &str) -> Result<String, AllocError>
    ensures { IfOk result (λ age. string_bytes age ≡ spec.age_at now text.now (parse_timestamp text.now)) }
{
    match read_time(text) {
        Ok(created) => since_any(alloc, micros_of(created), now),
        Err(error) => unread(alloc, text, error),
    }
}

/// The column Age: how long before that moment the object was created, by its `metadata.creationTimestamp` as `jiff` reads a
/// timestamp (RFC 3339), and `<unknown>` where it has none, or one before 1970. Less than two seconds after that moment count as
/// `0s`, as clocks differ, and a later time is `<invalid>`: also one after 9999-12-30T22:00:00.999999999Z, the last that is read.
#[tactic(auto, unfolding(crate::specs::Ages::age_cell))]
pub fn age_cell(alloc: Global, object: &Value, now: Moment) -> Result<String, AllocError>
    ensures { IfOk result (λ age. string_bytes age ≡ spec.age_cell now (view object.now)) }
{
    match text_in(inner(object, "metadata", "creationTimestamp")) {
        Some(text) => age_of(alloc, now, text),
        None => String::from_str(alloc, "<unknown>"),
    }
}
