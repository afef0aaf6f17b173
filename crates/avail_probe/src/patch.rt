// What an object says of its service, and the patch that says it anew.
ghost use Rattle.std.specs.Prelude.{◌≡◌, IfOk, OnOk, option_map};
ghost use Rattle.json_value.specs.Read.{value_of};
ghost use Rattle.serde_json.specs.Data.{Items, item, object, member, no_members, array};
ghost use Rattle.serde_json.specs.View.{items_view, view};
ghost use Rattle.avail_probe.specs.Status as spec;

use apiservice_rows::Row;
use front_base::{Bytes, NoMemory};
use json_value::{ValueError, has_float, inner, is_text, present, read_value};
use serde_json::{Map, Value, json};
use std::alloc::{AllocError, Global};

fn is_available(condition: &Value) -> bool
    ensures { result ≡ spec.is_available (view condition.now) }
{
    is_text("Available", present(condition, "type"))
}

// Whether the first condition `Available` is true, where there is one.
fn told_by(conditions: &[Value]) -> Option<bool>
    ensures { result ≡ spec.told_by (items_view conditions.now) }
{
    for condition in conditions {
        if is_available(condition) {
            return Some(is_text("True", present(condition, "status")));
        }
    }
    None
}

fn told_in(value: &Value) -> Option<bool>
    ensures { result ≡ spec.told_by (spec.conditions_of (view value.now)) }
{
    match inner(value, "status", "conditions") {
        Some(Value::Array(conditions)) => told_by(conditions.as_slice()),
        _ => None,
    }
}

// The value of a text, if it is JSON.
fn value_in(alloc: Global, text: &[u8]) -> Result<Option<Value>, NoMemory>
    ensures { IfOk result (λ value. option_map view value ≡ value_of text.now) }
{
    match read_value(alloc, text) {
        Ok(value) => Ok(Some(value)),
        Err(ValueError::NotJson) => Ok(None),
        Err(ValueError::NoMemory) => Err(NoMemory),
    }
}

/// Whether a row's object says that its service is available, or that it isn't; none where it says neither.
pub fn told_of(alloc: Global, row: &Row) -> Result<Option<bool>, NoMemory>
    ensures { IfOk result (λ told. told ≡ spec.told_of row.now) }
{
    match value_in(alloc, row.object.as_slice())? {
        Some(value) => Ok(told_in(&value)),
        None => Ok(None),
    }
}

fn word_of(up: bool) -> &'static str
    ensures { result.now ≡ spec.word_of up }
{
    if up { "True" } else { "False" }
}

fn reason_of(up: bool) -> &'static str
    ensures { result.now ≡ spec.reason_of up }
{
    if up { "Passed" } else { "FailedDiscoveryCheck" }
}

fn condition_of(alloc: Global, up: bool, message: &str, since: &str) -> Result<Value, AllocError>
    ensures { IfOk result (λ own. view own ≡ spec.condition_of (record { up = up; message = message.now; since = since.now })) }
{
    let word = word_of(up);
    let reason = reason_of(up);
    json!(in alloc; {
        "lastTransitionTime": since,
        "message": message,
        "reason": reason,
        "status": word,
        "type": "Available"
    })
}

fn is_other(condition: &Value) -> bool
    ensures { result ≡ spec.is_other (view condition.now) }
{
    condition.is_object() && !is_available(condition)
}

fn push_other(all: &mut Vec<Value>, condition: &Value) -> Result<(), AllocError>
    ensures { OnOk result (items_view all.new.items
        ≡ spec.joined (items_view all.old.items) (spec.one_if (spec.is_other (view condition.now)) (view condition.now))) }
{
    if is_other(condition) {
        all.push(condition.clone()?)?;
    }
    Ok(())
}

fn push_others(all: &mut Vec<Value>, conditions: &[Value]) -> Result<(), AllocError>
    ensures { OnOk result (items_view all.new.items
        ≡ spec.joined (items_view all.old.items) (spec.others (items_view conditions.now))) }
{
    for condition in conditions {
        push_other(all, condition)?;
    }
    Ok(())
}

// One condition, and then the others.
fn joined(alloc: Global, own: Value, conditions: &[Value]) -> Result<Vec<Value>, AllocError>
    ensures { IfOk result (λ all. items_view all.items ≡ item (view own) (spec.others (items_view conditions.now))) }
{
    let mut all = Vec::new(alloc);
    all.push(own)?;
    push_others(&mut all, conditions)?;
    Ok(all)
}

// The same, but the others only where no number in them has a fraction.
fn with_others(
    alloc: Global,
    up: bool,
    message: &str,
    since: &str,
    conditions: &[Value],
) -> Result<Value, AllocError>
    ensures { IfOk result (λ all. view all ≡ array (spec.with_others
        (spec.condition_of (record { up = up; message = message.now; since = since.now })) (items_view conditions.now))) }
{
    let own = condition_of(alloc, up, message, since)?;
    let all = Value::Array(joined(alloc, own, conditions)?);
    if has_float(&all) {
        let own = condition_of(alloc, up, message, since)?;
        return Ok(Value::Array(joined(alloc, own, &[])?));
    }
    Ok(all)
}

// The conditions of the patch of an object.
fn conditions_for(
    alloc: Global,
    value: &Option<Value>,
    up: bool,
    message: &str,
    since: &str,
) -> Result<Value, AllocError>
    ensures { IfOk result (λ all. view all ≡ array (spec.with_others
        (spec.condition_of (record { up = up; message = message.now; since = since.now }))
        (spec.conditions_in (option_map view value.now)))) }
{
    match value {
        Some(value) => match inner(value, "status", "conditions") {
            Some(Value::Array(conditions)) => {
                with_others(alloc, up, message, since, conditions.as_slice())
            }
            _ => with_others(alloc, up, message, since, &[]),
        },
        None => with_others(alloc, up, message, since, &[]),
    }
}

// An object with one member.
fn object_of(alloc: Global, name: &str, value: Value) -> Result<Value, AllocError>
    ensures { IfOk result (λ o. view o ≡ object (member name.now (view value) no_members)) }
{
    let mut members = Map::new(alloc);
    let name = String::from_str(alloc, name)?;
    drop(members.insert(name, value)?);
    Ok(Value::Object(members))
}

fn patch_of(alloc: Global, conditions: Value) -> Result<Value, AllocError>
    ensures { IfOk result (λ patch. (ds : Items) → view conditions ≡ array ds → view patch ≡ spec.patch_of ds) }
{
    let status = object_of(alloc, "conditions", conditions)?;
    object_of(alloc, "status", status)
}

/// The merge patch that says of a row's APIService whether it is available, with a message for people and the moment since when, as RFC 3339
/// has it. It has the condition `Available`, and with it the conditions of other types that the row's object has, since a patch replaces the
/// whole list. Of an object with a fraction in them, which no APIService has, these are left out.
pub fn patch_text(
    alloc: Global,
    row: &Row,
    up: bool,
    message: &str,
    since: &str,
) -> Result<Bytes, NoMemory>
    ensures { IfOk result (λ text. text
        ≡ spec.patch_text row.now (record { up = up; message = message.now; since = since.now })) }
{
    let value = value_in(alloc, row.object.as_slice())?;
    let conditions = conditions_for(alloc, &value, up, message, since)?;
    let patch = patch_of(alloc, conditions)?;
    let text = patch.to_string(alloc)?;
    Ok(Bytes::new(text.into_bytes()))
}
