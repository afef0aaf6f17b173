// The policy, and the APIService objects.
ghost use Rattle.std.specs.Prelude.{◌≡◌, IfOk};
ghost use Rattle.serde_json.specs.View.{view};
ghost use Rattle.warned_files.specs.Files as spec;
ghost use Rattle.warned_files.specs.Places.{report};

use crate::kind::Kind;
use crate::places::{Places, report};
use crate::walk::walk;
use front_base::{NoMemory, Text};
use json_value::{ValueError, is_text, present, read_value};
use serde_json::Value;
use std::alloc::Global;

fn policy_kind(value: &Value) -> Option<Kind>
    ensures { result ≡ spec.policy_kind (view value.now) }
{
    if is_text("Policy", present(value, "kind")) {
        Some(Kind::Policy)
    } else {
        None
    }
}

fn services_kind(value: &Value) -> Option<Kind>
    ensures { result ≡ spec.services_kind (view value.now) }
{
    if is_text("APIServiceList", present(value, "kind"))
        || is_text("List", present(value, "kind"))
    {
        Some(Kind::ServiceList)
    } else if is_text("APIService", present(value, "kind")) {
        Some(Kind::Service)
    } else {
        None
    }
}

// The places of a value of this type, if it is of one.
fn places_of(alloc: Global, kind: Option<Kind>, value: &Value) -> Result<Places, NoMemory>
    ensures { IfOk result (λ places. places ≡ report (spec.unread_as kind (view value.now))) }
{
    let mut found = Vec::new(alloc);
    if let Some(kind) = kind {
        walk(
            alloc,
            kind,
            &Text::new(String::new(alloc)),
            value,
            &mut found,
        )?;
    }
    Ok(report(found))
}

/// The members of a policy in JSON that its types don't have, as `rules[3].verb`.
pub fn unread_in_policy(alloc: Global, bytes: &[u8]) -> Result<Places, NoMemory>
    ensures { IfOk result (λ places. places ≡ report (spec.unread_in_policy bytes.now)) }
{
    match read_value(alloc, bytes) {
        Ok(value) => places_of(alloc, policy_kind(&value), &value),
        Err(ValueError::NotJson) => Ok(report(Vec::new(alloc))),
        Err(ValueError::NoMemory) => Err(NoMemory),
    }
}

/// The members of an APIService object in JSON, or of a list of such, that its types don't have, as `items[0].spec.caBundel`.
pub fn unread_in_services(alloc: Global, bytes: &[u8]) -> Result<Places, NoMemory>
    ensures { IfOk result (λ places. places ≡ report (spec.unread_in_services bytes.now)) }
{
    match read_value(alloc, bytes) {
        Ok(value) => places_of(alloc, services_kind(&value), &value),
        Err(ValueError::NotJson) => Ok(report(Vec::new(alloc))),
        Err(ValueError::NoMemory) => Err(NoMemory),
    }
}
