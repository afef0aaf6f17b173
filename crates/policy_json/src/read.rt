ghost use Rattle.std.specs.Prelude.{◌≡◌, ◌<◌, ◌≤◌, ◌^◌, None, codes, length, vec_len};
ghost use Rattle.serde_json.specs.View.{view, items_view};
ghost use Rattle.json_value.specs.Members.{listed, present};
ghost use Rattle.json_value.specs.Size.{inside};
ghost use Rattle.policy_json.specs.Fault.{Gives};
ghost use Rattle.policy_json.specs.Reading as spec;

use crate::fault::{PolicyFault, bad_field};
use crate::members::omissions_of;
use crate::reading::rule_of;
use front_base::MOST_FILE_BYTES;
use json_value::{head_fault, present, read_value};
use policy_rules::{Policy, Rules};
use serde_json::Value;
use std::alloc::Global;

// What the object is: its kind, the version of its API, and that its numbers are whole and fit 64 bits.
#[tactic(auto, unfolding(crate::specs::Reading::head_of))]
fn check_head(alloc: Global, value: &Value) -> Result<(), PolicyFault>
    ensures { Gives (λ u. u) result (spec.head_of (view value.now)) }
{
    match head_fault(false, "Policy", "audit.k8s.io/v1", value) {
        Some(name) => Err(bad_field(alloc, None, name)),
        None => Ok(()),
    }
}

#[tactic(auto, unfolding(crate::specs::Reading::rules_of))]
fn rules_of(alloc: Global, items: &Vec<Value>) -> Result<Rules, PolicyFault>
    requires { vec_len items.now < 2 ^ 32 }
    ensures { Gives (λ r. r) result (spec.rules_of (items_view items.now.items)) }
{
    let mut rules = Vec::new(alloc);
    let mut place: u32 = 0;
    for item in items {
        rules.push(rule_of(alloc, place, item)?)?;
        place += 1;
    }
    Ok(Rules::new(rules))
}

fn some_rules(alloc: Global, items: &Vec<Value>) -> Result<Rules, PolicyFault>
    requires { vec_len items.now < 2 ^ 32 }
    ensures { Gives (λ r. r) result (spec.some_rules (items_view items.now.items)) }
{
    if items.is_empty() {
        return Err(PolicyFault::NoRules);
    }
    rules_of(alloc, items)
}

fn listed_rules(alloc: Global, value: &Value) -> Result<Rules, PolicyFault>
    requires { inside (view value.now) < 2 ^ 32 }
    ensures { Gives (λ r. r) result
        (listed (PolicyFault.BadField None (codes "rules")) spec.some_rules (view value.now)) }
{
    match value.as_array() {
        Some(items) => some_rules(alloc, items),
        None => Err(bad_field(alloc, None, "rules")),
    }
}

fn rules_in(alloc: Global, value: &Value) -> Result<Rules, PolicyFault>
    requires { inside (view value.now) < 2 ^ 32 }
    ensures { Gives (λ r. r) result (spec.rules_in (present (codes "rules") (view value.now))) }
{
    match present(value, "rules") {
        None => Err(PolicyFault::NoRules),
        Some(value) => listed_rules(alloc, value),
    }
}

#[tactic(auto, unfolding(crate::specs::Reading::policy_of))]
fn policy_of(alloc: Global, value: &Value) -> Result<Policy, PolicyFault>
    requires { inside (view value.now) < 2 ^ 32 }
    ensures { Gives (λ p. p) result (spec.policy_of (view value.now)) }
{
    check_head(alloc, value)?;
    let omissions = omissions_of(alloc, None, value)?;
    let rules = rules_in(alloc, value)?;
    Ok(Policy {
        omit: omissions.stages,
        omit_managed: omissions.managed,
        rules,
    })
}

/// The policy of a text in JSON, or its first fault: of the policy's own members, then rule by rule. A file's bytes are few
/// enough that its rules have places of 32 bits.
#[tactic(auto, unfolding(crate::specs::Reading::read_policy))]
pub fn read_policy(alloc: Global, bytes: &[u8]) -> Result<Policy, PolicyFault>
    requires { length bytes.now ≤ MOST_FILE_BYTES }
    ensures { Gives (λ p. p) result (spec.read_policy bytes.now) }
{
    let value = read_value(alloc, bytes)?;
    policy_of(alloc, &value)
}
