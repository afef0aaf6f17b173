// The options of a DELETE.
ghost use Rattle.std.specs.Prelude.{◌≡◌, IfOk, option_map};
ghost use Rattle.serde_json.specs.View.{view, items_view};
ghost use Rattle.write_bodies.specs.Deletion as spec;

use crate::value::value_in;
use front_base::NoMemory;
use json_value::{is_text, present};
use serde_json::Value;
use std::alloc::Global;

/// How an object is to be deleted.
#[derive(Clone, Copy, Debug, PartialEq, Eq)]
pub enum Deletion {
    /// It is deleted.
    Plain,
    /// The deletion is tried, and not made.
    Trial,
    /// It is deleted only where it has the `uid` or the `resourceVersion` that is named.
    Conditional,
}

// Whether a body of that kind may be options. One that names none may.
fn is_kind(found: Option<&Value>) -> bool
    ensures { result ≡ spec.is_kind (option_map (λ v. view v.now) found.entry) }
{
    match found {
        None => true,
        Some(value) => is_text("DeleteOptions", Some(value)),
    }
}

// Whether each item is `All`, the only kind of dry run that there is.
fn are_all(items: &Vec<Value>) -> bool
    ensures { result ≡ spec.are_all (items_view items.now.items) }
{
    for item in items {
        if !is_text("All", Some(item)) {
            return false;
        }
    }
    true
}

fn is_filled(items: &Vec<Value>) -> bool
    ensures { result ≡ spec.is_filled (items_view items.now.items) }
{
    !items.is_empty()
}

fn trial_by(items: &Vec<Value>) -> Option<bool>
    ensures { result ≡ spec.trial_by (items_view items.now.items) }
{
    if are_all(items) {
        Some(is_filled(items))
    } else {
        None
    }
}

// Whether a dry run is asked for, if the member is what it may be.
fn trial_in(found: Option<&Value>) -> Option<bool>
    ensures { result ≡ spec.trial_in (option_map (λ v. view v.now) found.entry) }
{
    match found {
        None => Some(false),
        Some(Value::Array(items)) => trial_by(items),
        Some(_) => None,
    }
}

// Whether a member is a text or absent.
fn may_be_text(found: Option<&Value>) -> bool
    ensures { result ≡ spec.may_be_text (option_map (λ v. view v.now) found.entry) }
{
    match found {
        None => true,
        Some(Value::String(_)) => true,
        Some(_) => false,
    }
}

fn condition_of(value: &Value) -> Option<bool>
    ensures { result ≡ spec.condition_of (view value.now) }
{
    let uid = present(value, "uid");
    let version = present(value, "resourceVersion");
    if value.is_object() && may_be_text(uid) && may_be_text(version) {
        Some(uid.is_some() || version.is_some())
    } else {
        None
    }
}

// Whether the object must be a certain one, if the member is what it may be.
fn condition_in(found: Option<&Value>) -> Option<bool>
    ensures { result ≡ spec.condition_in (option_map (λ v. view v.now) found.entry) }
{
    match found {
        None => Some(false),
        Some(value) => condition_of(value),
    }
}

fn kind_of(conditional: bool, trial: bool) -> Deletion
    ensures { result ≡ spec.kind_of conditional trial }
{
    if conditional {
        Deletion::Conditional
    } else if trial {
        Deletion::Trial
    } else {
        Deletion::Plain
    }
}

fn by(conditional: Option<bool>, trial: Option<bool>) -> Option<Deletion>
    ensures { result ≡ spec.by conditional trial }
{
    match conditional {
        None => None,
        Some(conditional) => match trial {
            None => None,
            Some(trial) => Some(kind_of(conditional, trial)),
        },
    }
}

fn options_of(value: &Value) -> Option<Deletion>
    ensures { result ≡ spec.options_of (view value.now) }
{
    if value.is_object() && is_kind(present(value, "kind")) {
        by(
            condition_in(present(value, "preconditions")),
            trial_in(present(value, "dryRun")),
        )
    } else {
        None
    }
}

/// What the body of a `DELETE` asks for (Kubernetes, `DeleteOptions`), or None where it is no such options: no JSON object, one of
/// another kind, or one whose `dryRun` or `preconditions` are not what they may be. A member that is null counts as absent.
#[tactic(auto, unfolding(crate::specs::Deletion::deletion_of))]
pub fn deletion_of(alloc: Global, body: &[u8]) -> Result<Option<Deletion>, NoMemory>
    ensures { IfOk result (λ deletion. deletion ≡ spec.deletion_of body.now) }
{
    if body.is_empty() {
        return Ok(Some(Deletion::Plain));
    }
    match value_in(alloc, body)? {
        Some(value) => Ok(options_of(&value)),
        None => Ok(None),
    }
}
