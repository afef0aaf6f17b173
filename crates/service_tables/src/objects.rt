// What a row carries of its object.
ghost use Rattle.std.specs.Prelude.{◌≡◌, Some, IfOk, OnOk, string_bytes};
ghost use Rattle.serde_json.specs.Data as json;
ghost use Rattle.serde_json.specs.View.{view, members_view};
ghost use Rattle.service_tables.specs.Objects as spec;

use crate::include::IncludeObject;
use json_value::{has_float, present};
use serde_json::{Map, Value};
use std::alloc::{AllocError, Global};

// The text of a member that holds the metadata.
fn member_text(alloc: Global, member: &Value) -> Result<String, AllocError>
    ensures { IfOk result (λ text. string_bytes text ≡ spec.metadata_in (Some (view member.now))) }
{
    if has_float(member) {
        return String::from_str(alloc, "{}");
    }
    member.to_string(alloc)
}

fn metadata_text(alloc: Global, object: &Value) -> Result<String, AllocError>
    ensures { IfOk result (λ text. string_bytes text ≡ spec.metadata_text (view object.now)) }
{
    match present(object, "metadata") {
        Some(member) => member_text(alloc, member),
        None => String::from_str(alloc, "{}"),
    }
}

#[tactic(auto, unfolding(crate::specs::Objects::partial_text))]
fn partial_text(alloc: Global, metadata: &str) -> Result<String, AllocError>
    ensures { IfOk result (λ text. string_bytes text ≡ spec.partial_text metadata.now) }
{
    format!(in alloc;
        "{{\"kind\":\"PartialObjectMetadata\",\"apiVersion\":\"meta.k8s.io/v1\",\"metadata\":{metadata}}}"
    )
}

fn partial_of(alloc: Global, object: &Value) -> Result<String, AllocError>
    ensures { IfOk result (λ text. string_bytes text ≡ spec.partial_text (spec.metadata_text (view object.now))) }
{
    let metadata = metadata_text(alloc, object)?;
    partial_text(alloc, metadata.as_str())
}

// A text as the member of that name, in the place of another one.
fn put_text(
    alloc: Global,
    members: &mut Map<String, Value>,
    name: &str,
    text: &str,
) -> Result<(), AllocError>
    ensures { OnOk result (members_view members.new.entries
        ≡ json.put name.now (json.string text.now) (members_view members.old.entries)) }
{
    let text = String::from_str(alloc, text)?;
    let name = String::from_str(alloc, name)?;
    drop(members.insert(name, Value::String(text))?);
    Ok(())
}

fn put_head(alloc: Global, members: &mut Map<String, Value>) -> Result<(), AllocError>
    ensures { OnOk result (json.object (members_view members.new.entries) ≡ spec.with_head (json.object (members_view members.old.entries))) }
{
    put_text(alloc, members, "apiVersion", "apiregistration.k8s.io/v1")?;
    put_text(alloc, members, "kind", "APIService")
}

fn with_head(alloc: Global, value: Value) -> Result<Value, AllocError>
    ensures { IfOk result (λ whole. view whole ≡ spec.with_head (view value)) }
{
    match value {
        Value::Object(members) => {
            let mut members = members;
            put_head(alloc, &mut members)?;
            Ok(Value::Object(members))
        }
        other => Ok(other),
    }
}

fn whole_text(alloc: Global, value: &Value) -> Result<String, AllocError>
    ensures { IfOk result (λ text. string_bytes text ≡ spec.whole_text (view value.now)) }
{
    if has_float(value) {
        return String::from_str(alloc, "null");
    }
    value.to_string(alloc)
}

fn whole_of(alloc: Global, object: Value) -> Result<String, AllocError>
    ensures { IfOk result (λ text. string_bytes text ≡ spec.whole_text (spec.with_head (view object))) }
{
    let whole = with_head(alloc, object)?;
    whole_text(alloc, &whole)
}

// What a row carries of its object, which is used up.
pub fn object_text(
    alloc: Global,
    include: IncludeObject,
    object: Value,
) -> Result<String, AllocError>
    ensures { IfOk result (λ text. string_bytes text ≡ spec.object_text include (view object)) }
{
    match include {
        IncludeObject::None => String::from_str(alloc, "null"),
        IncludeObject::Metadata => partial_of(alloc, &object),
        IncludeObject::Object => whole_of(alloc, object),
    }
}
