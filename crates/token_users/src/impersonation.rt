// Whom a request acts as (Kubernetes, "Authenticating": user impersonation).
ghost use Rattle.std.specs.Prelude.{◌≡◌, IfOk, option_map};
ghost use Rattle.std.specs.List.{list_any};
ghost use Rattle.token_users.specs.Act as spec;

use crate::acting::Act;
use crate::asker::Who;
use crate::carried::is_plain;
use crate::user::{AUTHENTICATED, push_copy, user_named, with_group};
use front_base::{NoMemory, Text, Texts, User};
use http_head::{Head, Header};
use std::alloc::Global;

const USER_HEADER: &str = "impersonate-user";

const GROUP_HEADER: &str = "impersonate-group";

// Its members may do everything.
const MASTERS: &str = "system:masters";

fn is_impersonation(header: &Header) -> bool
    ensures { result ≡ spec.is_impersonation header.now }
{
    header.name_begins("impersonate-")
}

fn is_unserved(header: &Header) -> bool
    ensures { result ≡ spec.is_unserved header.now }
{
    is_impersonation(header) && !(header.is_named(USER_HEADER) || header.is_named(GROUP_HEADER))
}

fn asks(headers: &[Header]) -> bool
    ensures { result ≡ list_any spec.is_impersonation headers.now }
{
    headers.iter().any(|header| is_impersonation(header))
}

fn asks_for_more(headers: &[Header]) -> bool
    ensures { result ≡ list_any spec.is_unserved headers.now }
{
    headers.iter().any(|header| is_unserved(header))
}

fn is_plain_name(text: &str) -> bool
    ensures { result ≡ spec.is_plain_name text.now }
{
    !text.is_empty() && is_plain(text)
}

fn plain_name(text: &str) -> Option<&str>
    ensures { option_map (λ s. s.now) result ≡ spec.plain_name text.now }
{
    if is_plain_name(text) {
        Some(text)
    } else {
        None
    }
}

// The name that a value is.
fn name_in(value: &[u8]) -> Option<&str>
    ensures { option_map (λ s. s.now) result ≡ spec.name_in value.now }
{
    match str::from_utf8(value) {
        Ok(text) => plain_name(text),
        Err(_) => None,
    }
}

// The values of the headers of a name, unless one of them is no name.
fn names(alloc: Global, name: &str, headers: &[Header]) -> Result<Option<Texts>, NoMemory>
    ensures { IfOk result (λ found. found ≡ spec.names name.now headers.now) }
{
    let mut names = Vec::new(alloc);
    for header in headers {
        if header.is_named(name) {
            match name_in(header.value.as_slice()) {
                Some(value) => push_copy(alloc, &mut names, value)?,
                None => return Ok(None),
            }
        }
    }
    Ok(Some(Texts::new(names)))
}

fn has_group(groups: &[Text], name: &str) -> bool
    ensures { result ≡ spec.has_group name.now groups.now }
{
    groups.iter().any(|group| group.as_str() == name)
}

// Everybody that somebody acts as is known.
fn with_authenticated(alloc: Global, groups: Texts) -> Result<Texts, NoMemory>
    ensures { IfOk result (λ all. all ≡ spec.with_authenticated groups) }
{
    if has_group(groups.as_slice(), AUTHENTICATED) {
        return Ok(groups);
    }
    with_group(alloc, groups, AUTHENTICATED)
}

fn user_with(alloc: Global, name: &Text, groups: Texts) -> Result<User, NoMemory>
    ensures { IfOk result (λ user. user ≡ spec.user_with name.now groups) }
{
    let groups = with_authenticated(alloc, groups)?;
    user_named(alloc, name.as_str(), groups)
}

fn one_user(alloc: Global, users: &[Text], groups: Texts) -> Result<Option<User>, NoMemory>
    ensures { IfOk result (λ user. user ≡ spec.one_user users.now groups) }
{
    match users {
        [name] => Ok(Some(user_with(alloc, name, groups)?)),
        _ => Ok(None),
    }
}

// The user that the headers ask to act as, where they name one.
fn user_asked(alloc: Global, headers: &[Header]) -> Result<Option<User>, NoMemory>
    ensures { IfOk result (λ user. user ≡ spec.user_asked headers.now) }
{
    let Some(users) = names(alloc, USER_HEADER, headers)? else {
        return Ok(None);
    };
    let Some(groups) = names(alloc, GROUP_HEADER, headers)? else {
        return Ok(None);
    };
    one_user(alloc, users.as_slice(), groups)
}

impl Who {
    // Whether the user that it counts as may do everything.
    fn is_master(&self) -> bool
        ensures { result ≡ spec.is_master self.now }
    {
        match self {
            Who::Known(user) => has_group(user.groups.as_slice(), MASTERS),
            Who::Anonymous | Who::BadToken => false,
        }
    }
}

fn as_asked(master: bool, user: Option<User>) -> Act
    ensures { result ≡ spec.as_asked master user }
{
    match user {
        None => Act::Bad,
        Some(user) if master => Act::As(user),
        Some(_) => Act::Forbidden,
    }
}

/// As whom a request of that user asks to act.
#[tactic(auto, unfolding(crate::specs::Act::act_of))]
pub fn act(alloc: Global, who: &Who, head: &Head) -> Result<Act, NoMemory>
    ensures { IfOk result (λ act. act ≡ spec.act_of who.now head.now) }
{
    let headers = head.headers.as_slice();
    if !asks(headers) {
        return Ok(Act::Own);
    }
    if asks_for_more(headers) {
        return Ok(Act::Unserved);
    }
    let user = user_asked(alloc, headers)?;
    Ok(as_asked(who.is_master(), user))
}
