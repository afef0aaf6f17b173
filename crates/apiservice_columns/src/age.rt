// How long ago something was, for people.
ghost use Rattle.std.specs.Prelude.{◌≡◌, ◌<◌, IfOk, string_bytes};
ghost use Rattle.apiservice_columns.specs.Age as spec;

use std::alloc::{AllocError, Global};

fn in_one(alloc: Global, count: u64, unit: &str) -> Result<String, AllocError>
    ensures { IfOk result (λ text. string_bytes text ≡ spec.in_one count unit.now) }
{
    format!(in alloc; "{count}{unit}")
}

fn in_both(
    alloc: Global,
    whole: u64,
    large: &str,
    rest: u64,
    small: &str,
) -> Result<String, AllocError>
    ensures { IfOk result (λ text. string_bytes text ≡ spec.in_both whole large.now rest small.now) }
{
    format!(in alloc; "{whole}{large}{rest}{small}")
}

#[tactic(auto, unfolding(crate::specs::Age::in_two))]
fn in_two(
    alloc: Global,
    count: u64,
    each: u64,
    large: &str,
    small: &str,
) -> Result<String, AllocError>
    requires { 0 < each }
    ensures { IfOk result (λ text. string_bytes text ≡ spec.in_two count each large.now small.now) }
{
    let whole = count / each;
    let rest = count % each;
    if rest == 0 {
        return in_one(alloc, whole, large);
    }
    in_both(alloc, whole, large, rest, small)
}

#[tactic(auto, unfolding(crate::specs::Age::minutes_text))]
fn minutes_text(alloc: Global, seconds: u64) -> Result<String, AllocError>
    ensures { IfOk result (λ text. string_bytes text ≡ spec.minutes_text seconds) }
{
    if seconds < 120 {
        in_one(alloc, seconds, "s")
    } else if seconds < 600 {
        in_two(alloc, seconds, 60, "m", "s")
    } else {
        in_one(alloc, seconds / 60, "m")
    }
}

#[tactic(auto, unfolding(crate::specs::Age::hours_text))]
fn hours_text(alloc: Global, seconds: u64) -> Result<String, AllocError>
    ensures { IfOk result (λ text. string_bytes text ≡ spec.hours_text seconds) }
{
    if seconds < 28_800 {
        in_two(alloc, seconds / 60, 60, "h", "m")
    } else if seconds < 172_800 {
        in_one(alloc, seconds / 3600, "h")
    } else {
        in_two(alloc, seconds / 3600, 24, "d", "h")
    }
}

#[tactic(auto, unfolding(crate::specs::Age::days_text))]
fn days_text(alloc: Global, seconds: u64) -> Result<String, AllocError>
    ensures { IfOk result (λ text. string_bytes text ≡ spec.days_text seconds) }
{
    if seconds < 63_072_000 {
        in_one(alloc, seconds / 86_400, "d")
    } else if seconds < 252_288_000 {
        in_two(alloc, seconds / 86_400, 365, "y", "d")
    } else {
        in_one(alloc, seconds / 31_536_000, "y")
    }
}

/// So many seconds, as kubectl shows an age: `119s`, `2m5s`, `47h`, `2d1h`, `729d`, `2y1d`.
#[tactic(auto, unfolding(crate::specs::Age::duration_text))]
pub fn duration_text(alloc: Global, seconds: u64) -> Result<String, AllocError>
    ensures { IfOk result (λ text. string_bytes text ≡ spec.duration_text seconds) }
{
    if seconds < 10_800 {
        minutes_text(alloc, seconds)
    } else if seconds < 691_200 {
        hours_text(alloc, seconds)
    } else {
        days_text(alloc, seconds)
    }
}
