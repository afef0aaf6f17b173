// What the columns of an APIService say.
ghost use Rattle.std.specs.Prelude.{◌≡◌, ◌++◌, ◌∷◌, codes, IfOk, string_bytes};
ghost use Rattle.serde_json.specs.View.{view, items_view};
ghost use Rattle.apiservice_columns.specs.Cells as spec;

use apiservice_rows::ServiceRef;
use json_value::{inner, is_text, present, text_in};
use serde_json::Value;
use std::alloc::{AllocError, Global};

fn joined(alloc: Global, namespace: &str, name: &str) -> Result<String, AllocError>
    ensures { IfOk result (λ text. string_bytes text ≡ namespace.now ++ 47 ∷ name.now) }
{
    format!(in alloc; "{namespace}/{name}")
}

/// The column Service: the namespace and the name of the service that answers, or `Local`.
#[tactic(auto, unfolding(crate::specs::Cells::service_cell))]
pub fn service_cell(alloc: Global, service: &Option<ServiceRef>) -> Result<String, AllocError>
    ensures { IfOk result (λ text. string_bytes text ≡ spec.service_cell service.now) }
{
    match service {
        Some(service) => joined(alloc, service.namespace.as_str(), service.name.as_str()),
        None => String::from_str(alloc, "Local"),
    }
}

fn with_reason(alloc: Global, status: &str, reason: &str) -> Result<String, AllocError>
    ensures { IfOk result (λ text. string_bytes text
        ≡ status.now ++ (codes " (" ++ (reason.now ++ codes ")"))) }
{
    format!(in alloc; "{status} ({reason})")
}

#[tactic(auto, unfolding(crate::specs::Cells::told))]
fn told(alloc: Global, status: &str, reason: &str) -> Result<String, AllocError>
    ensures { IfOk result (λ text. string_bytes text ≡ spec.told status.now reason.now) }
{
    if status == "True" || reason.is_empty() {
        return String::from_str(alloc, status);
    }
    with_reason(alloc, status, reason)
}

fn text_of<'v>(condition: &'v Value, name: &str) -> &'v str
    ensures { result.now ≡ spec.text_of name.now (view condition.now) }
{
    match text_in(present(condition, name)) {
        Some(text) => text,
        None => "",
    }
}

#[tactic(auto, unfolding(crate::specs::Cells::condition_cell))]
fn condition_cell(alloc: Global, condition: &Value) -> Result<String, AllocError>
    ensures { IfOk result (λ text. string_bytes text ≡ spec.condition_cell (view condition.now)) }
{
    let status = text_of(condition, "status");
    let reason = text_of(condition, "reason");
    told(alloc, status, reason)
}

fn available_in(alloc: Global, conditions: &Vec<Value>) -> Result<String, AllocError>
    ensures { IfOk result (λ text. string_bytes text ≡ spec.available_in (items_view conditions.now.items)) }
{
    for condition in conditions {
        if is_text("Available", present(condition, "type")) {
            return condition_cell(alloc, condition);
        }
    }
    String::from_str(alloc, "Unknown")
}

fn conditions_cell(alloc: Global, object: &Value) -> Result<String, AllocError>
    ensures { IfOk result (λ text. string_bytes text ≡ spec.conditions_cell (view object.now)) }
{
    match inner(object, "status", "conditions") {
        Some(Value::Array(conditions)) => available_in(alloc, conditions),
        _ => String::from_str(alloc, "Unknown"),
    }
}

/// The column Available: `True` where no service is named, as the cluster's own API server answers and routing asks no condition.
/// Else `True`, or the status of the first condition of that type with its reason, as `False (MissingEndpoints)`; `Unknown` where
/// the object has none. Routing counts such an object as available.
#[tactic(auto, unfolding(crate::specs::Cells::available_cell))]
pub fn available_cell(
    alloc: Global,
    service: &Option<ServiceRef>,
    object: &Value,
) -> Result<String, AllocError>
    ensures { IfOk result (λ text. string_bytes text ≡ spec.available_cell service.now (view object.now)) }
{
    match service {
        Some(_) => conditions_cell(alloc, object),
        None => String::from_str(alloc, "True"),
    }
}
