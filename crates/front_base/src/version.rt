ghost use Rattle.std.specs.Prelude.{◌≡◌, ◌<◌, ◌≤◌, ◌↔◌, ℕ, List, length};
ghost use Rattle.std.specs.Cmp.Lexicographic.{slice_cmp};
ghost use Rattle.std.specs.Ordering.{nat_cmp};
ghost use Rattle.std.specs.Cmp.{IsTotalOrder};
ghost use Rattle.front_base.specs.Version as spec;
ghost use Rattle.front_base.specs.VersionForms.{IsAlpha, IsBeta, IsOther, IsStable, IsVersion};

use crate::number::number_of;
use std::cmp::Ordering;

// How far a version has come, as its spelling tells.
#[derive(Clone, Copy, Debug, PartialEq, Eq, PartialOrd, Ord)]
enum Maturity {
    Stable,
    Beta,
    Alpha,
    Other,
}

impl Maturity {
    // The place in the order of versions.
    fn rank(self) -> u8
        ensures { result ≡ spec.rank self }
    {
        match self {
            Maturity::Stable => 0,
            Maturity::Beta => 1,
            Maturity::Alpha => 2,
            Maturity::Other => 3,
        }
    }
}

// What decides a version's place before its text does.
#[derive(Clone, Copy, Debug, PartialEq, Eq)]
struct VersionKey {
    maturity: Maturity,
    major: u64,
    minor: u64,
}

const OTHER: VersionKey = VersionKey {
    maturity: Maturity::Other,
    major: 0,
    minor: 0,
};

fn stable_key(major: Option<u64>) -> VersionKey
    ensures { result ≡ spec.stable_key major }
{
    match major {
        Some(major) => VersionKey {
            maturity: Maturity::Stable,
            major,
            minor: 0,
        },
        None => OTHER,
    }
}

fn early_key(maturity: Maturity, major: Option<u64>, minor: Option<u64>) -> VersionKey
    ensures { result ≡ spec.early_key maturity major minor }
{
    match (major, minor) {
        (Some(major), Some(minor)) => VersionKey {
            maturity,
            major,
            minor,
        },
        _ => OTHER,
    }
}

// The key by what follows the first number.
#[tactic(auto, unfolding(crate::specs::Version::tail_key))]
fn tail_key(major: Option<u64>, rest: &[u8]) -> VersionKey
    ensures { result ≡ spec.tail_key major rest.now }
{
    if rest.is_empty() {
        stable_key(major)
    } else if rest.starts_with(b"alpha") {
        early_key(Maturity::Alpha, major, number_of(&rest[5..]))
    } else if rest.starts_with(b"beta") {
        early_key(Maturity::Beta, major, number_of(&rest[4..]))
    } else {
        OTHER
    }
}

// How many digits stand in front.
fn digits_len(text: &[u8]) -> usize
    ensures value { result ≡ spec.digits_len text.now }
    ensures within { result ≤ length text.now }
{
    match text.iter().position(|b| !b.is_ascii_digit()) {
        Some(i) => i,
        None => text.len(),
    }
}

#[tactic(auto, unfolding(crate::specs::Version::key_of))]
fn key_of(text: &[u8]) -> VersionKey
    ensures { result ≡ spec.key_of text.now }
{
    match text {
        [b'v', rest @ ..] => {
            let (major, rest) = rest.split_at(digits_len(rest));
            tail_key(number_of(major), rest)
        }
        _ => OTHER,
    }
}

/// The order of versions, the one to prefer first: `v2`, `v1`, `v1beta1`, `v1alpha1`, and then every other text.
pub fn compare_versions(a: &str, b: &str) -> Ordering
    ensures { result ≡ spec.version_order a.now b.now }
{
    let x = key_of(a.as_bytes());
    let y = key_of(b.as_bytes());
    let maturity = x.maturity.rank().cmp(&y.maturity.rank());
    let major = y.major.cmp(&x.major);
    let minor = y.minor.cmp(&x.minor);
    maturity.then(major.then(minor.then(a.cmp(b))))
}

/// The order of versions is total, and only equal texts are equal in it.
pub fn versions_are_ordered()
    ensures total { IsTotalOrder spec.version_order }
    ensures equal { (a b : List ℕ) → spec.version_order a b ≡ Ordering.Equal ↔ a ≡ b }
{}

/// Versions that are generally available come before beta versions, these before alpha versions, and texts of no such form
/// come last.
pub fn versions_by_form()
    ensures beta { (a b : List ℕ) (m n k : ℕ) → IsStable a m → IsBeta b n k → spec.version_order a b ≡ Ordering.Less }
    ensures alpha { (a b : List ℕ) (m n k l : ℕ) → IsBeta a m n → IsAlpha b k l → spec.version_order a b ≡ Ordering.Less }
    ensures other { (a b : List ℕ) → IsVersion a → IsOther b → spec.version_order a b ≡ Ordering.Less }
{}

/// Among versions of one form the greater first number comes first, and then the greater second number, both compared as
/// numbers. Texts of no such form are in byte order.
pub fn versions_by_number()
    ensures stable { (a b : List ℕ) (m n : ℕ) → IsStable a m → IsStable b n → n < m → spec.version_order a b ≡ Ordering.Less }
    ensures beta_major { (a b : List ℕ) (m n k l : ℕ) → IsBeta a m n → IsBeta b k l → k < m → spec.version_order a b ≡ Ordering.Less }
    ensures beta_minor { (a b : List ℕ) (m n l : ℕ) → IsBeta a m n → IsBeta b m l → l < n → spec.version_order a b ≡ Ordering.Less }
    ensures alpha_major { (a b : List ℕ) (m n k l : ℕ) → IsAlpha a m n → IsAlpha b k l → k < m → spec.version_order a b ≡ Ordering.Less }
    ensures alpha_minor { (a b : List ℕ) (m n l : ℕ) → IsAlpha a m n → IsAlpha b m l → l < n → spec.version_order a b ≡ Ordering.Less }
    ensures other { (a b : List ℕ) → IsOther a → IsOther b → spec.version_order a b ≡ slice_cmp nat_cmp a b }
{}
