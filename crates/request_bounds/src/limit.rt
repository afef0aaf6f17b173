// The most bytes that a line can have, by a token file.
ghost use Rattle.std.specs.Prelude.{◌≡◌, ◌-◌, ◌^◌, min};
ghost use Rattle.request_bounds.specs.Bounds as spec;

use crate::{PER_HEAD_BYTE, PER_USER_BYTE};
use front_base::{Text, User};
use http_head::MOST_HEAD_BYTES;
use line_bounds::OTHER_BYTES;
use token_users::Record;

// `system:anonymous` and its group, which is `system:unauthenticated`.
const NOBODY_BYTES: u64 = 39;

// `system:authenticated`, with one more.
const KNOWN_BYTES: u64 = 21;

fn groups_length(groups: &[Text]) -> u64
    ensures { result ≡ min (spec.groups_length groups.now) (2 ^ 64 - 1) }
{
    let mut total: u64 = 0;
    for group in groups {
        total = total
            .saturating_add(group.as_str().len() as u64)
            .saturating_add(1);
    }
    total
}

/// How many bytes a user has: those of its name, its uid and its groups, with one more for each group. Past 64 bits it is
/// `u64::MAX`.
pub fn user_length(user: &User) -> u64
    ensures { result ≡ min (spec.user_length user.now) (2 ^ 64 - 1) }
{
    let name = user.name.as_str().len() as u64;
    let uid = user.uid.as_str().len() as u64;
    name.saturating_add(uid)
        .saturating_add(groups_length(user.groups.as_slice()))
}

fn longest_user(records: &[Record]) -> u64
    ensures { result ≡ min (spec.longest_user records.now) (2 ^ 64 - 1) }
{
    let mut longest: u64 = 0;
    for record in records {
        longest = longest.max(user_length(&record.user));
    }
    longest
}

/// The most bytes that the line of an event without its objects has where these are the records of the token file, whatever
/// the request is. Past 64 bits it is `u64::MAX`.
pub fn line_limit(records: &[Record]) -> u64
    ensures { result ≡ min (spec.line_limit records.now) (2 ^ 64 - 1) }
{
    let user = longest_user(records)
        .saturating_add(KNOWN_BYTES)
        .max(NOBODY_BYTES);
    let head = PER_HEAD_BYTE * MOST_HEAD_BYTES as u64;
    user.saturating_mul(PER_USER_BYTE)
        .saturating_add(head + OTHER_BYTES)
}
