// Whether a request may have such users (Kubernetes, "Authenticating").
ghost use Rattle.std.specs.Prelude.{◌≡◌};
ghost use Rattle.std.specs.List.{list_any};
ghost use Rattle.audit_check.specs.Agreement as spec;
ghost use Rattle.http_head.specs.Connection as head;
ghost use Rattle.token_users.specs.Act as act;
ghost use Rattle.token_users.specs.Carried as carried;

use front_base::{Text, User};

fn is_blank(byte: u8) -> bool
    ensures { result ≡ head.is_blank byte }
{
    byte == b' ' || byte == b'\t'
}

fn has_blank_at(bytes: &[u8], at: usize) -> bool
    ensures { result ≡ carried.has_blank_at bytes.now at }
{
    match bytes.get(at) {
        Some(byte) => is_blank(*byte),
        None => false,
    }
}

fn has_blank_ends(bytes: &[u8]) -> bool
    ensures { result ≡ carried.has_blank_ends bytes.now }
{
    has_blank_at(bytes, 0) || has_blank_at(bytes, bytes.len().saturating_sub(1))
}

fn has_blank_group(groups: &[Text]) -> bool
    ensures { result ≡ list_any carried.has_blank_ends groups.now }
{
    groups
        .iter()
        .any(|group| has_blank_ends(group.as_str().as_bytes()))
}

fn has_group(groups: &[Text], name: &str) -> bool
    ensures { result ≡ act.has_group name.now groups.now }
{
    groups.iter().any(|group| group.as_str() == name)
}

// Whether neither the name nor a group begins or ends with a blank.
pub fn is_user_in_place(user: &User) -> bool
    ensures { result ≡ spec.user_in_place user.now }
{
    !(has_blank_ends(user.name.as_str().as_bytes()) || has_blank_group(user.groups.as_slice()))
}

fn is_acted_as(user: &User) -> bool
    ensures { result ≡ spec.is_acted_as user.now }
{
    !user.name.as_str().is_empty()
        && user.uid.as_str().is_empty()
        && has_group(user.groups.as_slice(), "system:authenticated")
}

// Whether the user may act as the other one, if there is one.
pub fn is_acting_in_place(user: &User, other: &Option<User>) -> bool
    ensures { result ≡ spec.acting_in_place user.now other.now }
{
    match other {
        Some(other) => has_group(user.groups.as_slice(), "system:masters") && is_acted_as(other),
        None => true,
    }
}
