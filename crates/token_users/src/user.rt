// The user that a request counts as.
ghost use Rattle.std.specs.Prelude.{◌≡◌, [], ◌∷◌, ◌++◌, IfOk, OnOk};
ghost use Rattle.std.specs.List.{list_any};
ghost use Rattle.token_users.specs.Who as spec;

use crate::asker::Who;
use front_base::{NoMemory, Text, Texts, User};
use std::alloc::Global;

pub const AUTHENTICATED: &str = "system:authenticated";

const UNAUTHENTICATED: &str = "system:unauthenticated";

const ANONYMOUS: &str = "system:anonymous";

fn is_settled_group(group: &str) -> bool
    ensures { result ≡ spec.is_settled_group group.now }
{
    group == AUTHENTICATED || group == UNAUTHENTICATED
}

fn has_settled_group(groups: &[Text]) -> bool
    ensures { result ≡ list_any spec.is_settled_group groups.now }
{
    groups.iter().any(|group| is_settled_group(group.as_str()))
}

fn is_settled(user: &User) -> bool
    ensures { result ≡ spec.is_settled user.now }
{
    user.name.as_str() == ANONYMOUS || has_settled_group(user.groups.as_slice())
}

// Adds a copy of a text.
pub fn push_copy(alloc: Global, texts: &mut Vec<Text>, text: &str) -> Result<(), NoMemory>
    ensures { OnOk result (texts.new.items ≡ texts.old.items ++ text.now ∷ []) }
{
    let text = Text::copy_of(alloc, text)?;
    match texts.push(text) {
        Ok(()) => Ok(()),
        Err(_) => Err(NoMemory),
    }
}

// One more group.
pub fn with_group(alloc: Global, groups: Texts, name: &str) -> Result<Texts, NoMemory>
    ensures { IfOk result (λ more. more ≡ groups ++ name.now ∷ []) }
{
    let mut groups = groups.into_vec();
    push_copy(alloc, &mut groups, name)?;
    Ok(Texts::new(groups))
}

// Somebody without an ID.
pub fn user_named(alloc: Global, name: &str, groups: Texts) -> Result<User, NoMemory>
    ensures { IfOk result (λ user. (user.name ≡ name.now) × (user.uid ≡ []) × (user.groups ≡ groups)) }
{
    match Text::copy_of(alloc, name) {
        Ok(name) => Ok(User {
            name,
            uid: Text::new(String::new(alloc)),
            groups,
        }),
        Err(NoMemory) => Err(NoMemory),
    }
}

// A group more for those who are known by a token alone.
fn known_user(alloc: Global, user: User) -> Result<User, NoMemory>
    ensures { IfOk result (λ known. known ≡ spec.known_user user) }
{
    if is_settled(&user) {
        return Ok(user);
    }
    let User { name, uid, groups } = user;
    match with_group(alloc, groups, AUTHENTICATED) {
        Ok(groups) => Ok(User { name, uid, groups }),
        Err(NoMemory) => Err(NoMemory),
    }
}

fn nobody(alloc: Global) -> Result<User, NoMemory>
    ensures { IfOk result (λ user. user ≡ spec.nobody) }
{
    let groups = with_group(alloc, Texts::new(Vec::new(alloc)), UNAUTHENTICATED)?;
    user_named(alloc, ANONYMOUS, groups)
}

fn unknown(alloc: Global) -> User
    ensures { result ≡ spec.unknown }
{
    User {
        name: Text::new(String::new(alloc)),
        uid: Text::new(String::new(alloc)),
        groups: Texts::new(Vec::new(alloc)),
    }
}

impl Who {
    /// The user that a request counts as. Everybody that is known by a token is in `system:authenticated`, unless the
    /// name or the groups of the record say otherwise.
    pub fn into_user(self, alloc: Global) -> Result<User, NoMemory>
        ensures { IfOk result (λ user. user ≡ spec.user_of self) }
    {
        match self {
            Who::Known(user) => known_user(alloc, user),
            Who::Anonymous => nobody(alloc),
            Who::BadToken => Ok(unknown(alloc)),
        }
    }
}

/// The same of one that is used again.
pub fn user_of(alloc: Global, who: &Who) -> Result<User, NoMemory>
    ensures { IfOk result (λ user. user ≡ spec.user_of who.now) }
{
    match who {
        Who::Known(user) => known_user(alloc, user.copy(alloc)?),
        Who::Anonymous => nobody(alloc),
        Who::BadToken => Ok(unknown(alloc)),
    }
}
