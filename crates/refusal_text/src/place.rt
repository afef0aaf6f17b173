// Where in a file a fault is, in the terms of the file's format.
ghost use Rattle.std.specs.Prelude.{◌≡◌, ◌+◌, ◌++◌, IfOk, string_bytes, codes};
ghost use Rattle.std.specs.Fmt.{decimal};
ghost use Rattle.refusal_text.specs.Place as spec;

use apiservice_rows::RowFault;
use front_config::FileFault;
use policy_json::PolicyFault;
use std::alloc::{AllocError, Global};

// An element of a list, or nothing for what stands in no list.
fn element(alloc: Global, list: &str, place: Option<usize>) -> Result<String, AllocError>
    ensures { IfOk result (λ text. string_bytes text ≡ spec.element list.now place) }
{
    match place {
        None => Ok(String::new(alloc)),
        Some(place) => format!(in alloc; "{list}[{place}]"),
    }
}

// A member of an element of a list, or of what stands in no list.
fn member_of(
    alloc: Global,
    list: &str,
    place: Option<usize>,
    member: &str,
) -> Result<String, AllocError>
    ensures { IfOk result (λ text. string_bytes text ≡ spec.member_of list.now place member.now) }
{
    match place {
        None => String::from_str(alloc, member),
        Some(place) => format!(in alloc; "{list}[{place}].{member}"),
    }
}

fn is_whole(place: Option<u32>, name: &str) -> bool
    ensures { result ≡ spec.is_whole place name.now }
{
    name == "number" || place.is_some() && name == "rules"
}

fn size_of(place: Option<u32>) -> Option<usize>
    ensures { result ≡ place }
{
    match place {
        Some(place) => Some(place as usize),
        None => None,
    }
}

fn policy_member(alloc: Global, rule: Option<u32>, name: &str) -> Result<String, AllocError>
    ensures { IfOk result (λ text. string_bytes text
        ≡ spec.policy_place (PolicyFault.BadField rule name.now)) }
{
    if is_whole(rule, name) {
        element(alloc, "rules", size_of(rule))
    } else {
        member_of(alloc, "rules", size_of(rule), name)
    }
}

fn policy_place(alloc: Global, fault: &PolicyFault) -> Result<String, AllocError>
    ensures { IfOk result (λ text. string_bytes text ≡ spec.policy_place fault.now) }
{
    match fault {
        PolicyFault::NotJson | PolicyFault::NoMemory => Ok(String::new(alloc)),
        PolicyFault::NoRules => String::from_str(alloc, "rules"),
        PolicyFault::BadField { rule, name } => policy_member(alloc, *rule, name.as_str()),
        PolicyFault::BothKinds { rule } => element(alloc, "rules", Some(*rule as usize)),
        PolicyFault::BadUrl { rule } => {
            member_of(alloc, "rules", Some(*rule as usize), "nonResourceURLs")
        }
        PolicyFault::NamesWithoutResources { rule } => {
            member_of(alloc, "rules", Some(*rule as usize), "resources")
        }
    }
}

fn row_member(alloc: Global, item: Option<usize>, member: &str) -> Result<String, AllocError>
    ensures { IfOk result (λ text. string_bytes text ≡ spec.row_place (RowFault.BadField item member.now)) }
{
    if member == "number" {
        element(alloc, "items", item)
    } else {
        member_of(alloc, "items", item, member)
    }
}

fn row_place(alloc: Global, fault: &RowFault) -> Result<String, AllocError>
    ensures { IfOk result (λ text. string_bytes text ≡ spec.row_place fault.now) }
{
    match fault {
        RowFault::NotJson | RowFault::NoMemory => Ok(String::new(alloc)),
        RowFault::BadField { item, member } => row_member(alloc, *item, member.as_str()),
        RowFault::NameMismatch { item } => member_of(alloc, "items", *item, "metadata.name"),
        RowFault::Range { item, member } => member_of(alloc, "items", *item, member.as_str()),
        RowFault::Repeated { item, .. } => {
            member_of(alloc, "items", Some(*item), "metadata.name")
        }
        RowFault::Full => String::from_str(alloc, "items"),
    }
}

fn record_place(alloc: Global, row: u32) -> Result<String, AllocError>
    ensures { IfOk result (λ text. string_bytes text ≡ codes "record " ++ decimal (row + 1)) }
{
    let number = row as u64 + 1;
    format!(in alloc; "record {number}")
}

/// Where in its file a fault is: the record of a file of tokens or endpoints, or the member of a policy or of APIService
/// objects. Empty for the file as a whole.
pub fn place_of(alloc: Global, fault: &FileFault) -> Result<String, AllocError>
    ensures { IfOk result (λ text. string_bytes text ≡ spec.place_of fault.now) }
{
    match fault {
        FileFault::TooLong | FileFault::NotJson(_) => Ok(String::new(alloc)),
        FileFault::Token { row, .. } | FileFault::Endpoint { row, .. } => {
            record_place(alloc, *row)
        }
        FileFault::PolicyFile(fault) => policy_place(alloc, fault),
        FileFault::RowsFile(fault) => row_place(alloc, fault),
    }
}
