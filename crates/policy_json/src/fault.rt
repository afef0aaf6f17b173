ghost use Rattle.std.specs.Prelude.{◌≡◌, Some};
ghost use Rattle.policy_json.specs.Fault.{Fails, no_value};
ghost use Rattle.policy_json.specs.declared.fault.PolicyFault.TheVariants as fault;

use front_base::{NoMemory as OutOfMemory, Text};
use json_value::ValueError;
use std::alloc::{AllocFailed, Global};

/// Why a text gives no policy. A `rule` is a place in the list of rules, from 0.
#[derive(Debug, Drop)]
pub enum PolicyFault {
    /// The bytes are no JSON text.
    NotJson,
    /// The list of rules is absent or empty.
    NoRules,
    /// The member of that name is missing or has another form: of that rule, or else of the policy.
    BadField { rule: Option<u32>, name: Text },
    /// The rule has URLs beside resources or namespaces.
    BothKinds { rule: u32 },
    /// A URL is neither `*` nor a path with `*` at most at its end.
    BadUrl { rule: u32 },
    /// Names of resources stand without a resource.
    NamesWithoutResources { rule: u32 },
    NoMemory,
}

impl From<OutOfMemory> for PolicyFault {
    ghost from_gives = { λ _ e. e ≡ fault.NoMemory };

    fn from(_: OutOfMemory) -> Self {
        PolicyFault::NoMemory
    }
}

impl<T: Drop> From<AllocFailed<T>> for PolicyFault {
    ghost from_gives = { λ _ e. e ≡ fault.NoMemory };

    fn from(_: AllocFailed<T>) -> Self {
        PolicyFault::NoMemory
    }
}

impl From<ValueError> for PolicyFault {
    ghost from_gives = { λ error e. e ≡ no_value error };

    fn from(error: ValueError) -> Self {
        match error {
            ValueError::NotJson => PolicyFault::NotJson,
            ValueError::NoMemory => PolicyFault::NoMemory,
        }
    }
}

// The fault of a member, unless there is no room for its name.
pub fn bad_field(alloc: Global, rule: Option<u32>, name: &str) -> PolicyFault
    ensures { Fails result (Some (PolicyFault.BadField rule name.now)) }
{
    match Text::copy_of(alloc, name) {
        Ok(name) => PolicyFault::BadField { rule, name },
        Err(_) => PolicyFault::NoMemory,
    }
}
