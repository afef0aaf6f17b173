// The members of an APIService object, one check each. `item` is the object's place in a list, and None where it stands
// alone.
ghost use Rattle.std.specs.Prelude.{◌≡◌, false, IfOk, OnOk, option_map};
ghost use Rattle.serde_json.specs.View.{view, items_view};
ghost use Rattle.serde_json.specs.Written.{has_float};
ghost use Rattle.apiservice_rows.specs.Fault.{Gives};
ghost use Rattle.apiservice_rows.specs.Object as spec;
ghost use Rattle.apiservice_rows.specs.Row.{has_dot};

use crate::fault::{RowFault, bad_field};
use crate::service::FoundService;
use crate::spelling::{is_group, is_service_name, is_version};
use front_base::Text;
use json_value::{head_fault, inner, is_text, present, text_in};
use serde_json::Value;
use std::alloc::Global;

// What the object is: its kind, the version of its API, and that its numbers are whole and fit 64 bits.
#[tactic(auto, unfolding(crate::specs::Object::head_of))]
pub fn check_head(alloc: Global, item: Option<usize>, value: &Value) -> Result<(), RowFault>
    ensures value { Gives (λ u. u) result (spec.head_of item (view value.now)) }
    ensures whole { OnOk result (has_float (view value.now) ≡ false) }
{
    match head_fault(
        item.is_some(),
        "APIService",
        "apiregistration.k8s.io/v1",
        value,
    ) {
        Some(name) => Err(bad_field(alloc, item, name)),
        None => Ok(()),
    }
}

#[tactic(auto, unfolding(crate::specs::Object::name_of))]
pub fn name_of(alloc: Global, item: Option<usize>, value: &Value) -> Result<Text, RowFault>
    ensures { Gives (λ t. t) result (spec.name_of item (view value.now)) }
{
    match text_in(inner(value, "metadata", "name")) {
        Some(text) if !text.is_empty() => Ok(Text::copy_of(alloc, text)?),
        _ => Err(bad_field(alloc, item, "metadata.name")),
    }
}

fn some_group(alloc: Global, item: Option<usize>, found: &Value) -> Result<Text, RowFault>
    ensures { Gives (λ t. t) result (spec.some_group item (view found.now)) }
{
    match found.as_str() {
        Some(text) if is_group(text) => Ok(Text::copy_of(alloc, text)?),
        _ => Err(bad_field(alloc, item, "spec.group")),
    }
}

// Absent is the core group, whose name is empty.
#[tactic(auto, unfolding(crate::specs::Object::group_of))]
pub fn group_of(alloc: Global, item: Option<usize>, value: &Value) -> Result<Text, RowFault>
    ensures { Gives (λ t. t) result (spec.group_of item (view value.now)) }
{
    match inner(value, "spec", "group") {
        None => Ok(Text::new(String::new(alloc))),
        Some(found) => some_group(alloc, item, found),
    }
}

#[tactic(auto, unfolding(crate::specs::Object::version_of))]
pub fn version_of(alloc: Global, item: Option<usize>, value: &Value) -> Result<Text, RowFault>
    ensures value { Gives (λ t. t) result (spec.version_of item (view value.now)) }
    ensures no_dot { IfOk result (λ t. has_dot t ≡ false) }
{
    match text_in(inner(value, "spec", "version")) {
        Some(text) if is_version(text) => Ok(Text::copy_of(alloc, text)?),
        _ => Err(bad_field(alloc, item, "spec.version")),
    }
}

// The whole number of a member. One below 0 counts as 0, which is out of every range.
fn whole_in(found: Option<&Value>) -> Option<u64>
    ensures { result ≡ spec.whole_in (option_map (λ v. view v.now) found.entry) }
{
    let number = found?.as_number()?;
    if number.is_f64() {
        return None;
    }
    match number.as_u64() {
        Some(number) => Some(number),
        None => Some(0),
    }
}

// The number that `spec` has by that name, whose path is `member`.
#[tactic(auto, unfolding(crate::specs::Object::priority_of))]
fn priority_of(
    alloc: Global,
    item: Option<usize>,
    member: &str,
    name: &str,
    value: &Value,
) -> Result<u64, RowFault>
    ensures { Gives (λ n. n) result (spec.priority_of item member.now name.now (view value.now)) }
{
    match whole_in(inner(value, "spec", name)) {
        Some(number) => Ok(number),
        None => Err(bad_field(alloc, item, member)),
    }
}

#[tactic(auto, unfolding(crate::specs::Object::group_number_of))]
pub fn group_number_of(alloc: Global, item: Option<usize>, value: &Value) -> Result<u64, RowFault>
    ensures { Gives (λ n. n) result (spec.group_number_of item (view value.now)) }
{
    priority_of(
        alloc,
        item,
        "spec.groupPriorityMinimum",
        "groupPriorityMinimum",
        value,
    )
}

#[tactic(auto, unfolding(crate::specs::Object::version_number_of))]
pub fn version_number_of(alloc: Global, item: Option<usize>, value: &Value) -> Result<u64, RowFault>
    ensures { Gives (λ n. n) result (spec.version_number_of item (view value.now)) }
{
    priority_of(
        alloc,
        item,
        "spec.versionPriority",
        "versionPriority",
        value,
    )
}

// The text that the service has by that name, whose path is `member`.
#[tactic(auto, unfolding(crate::specs::Object::service_text))]
fn service_text(
    alloc: Global,
    item: Option<usize>,
    member: &str,
    name: &str,
    service: &Value,
) -> Result<Text, RowFault>
    ensures { Gives (λ t. t) result (spec.service_text item member.now name.now (view service.now)) }
{
    match text_in(present(service, name)) {
        Some(text) if is_service_name(text) => Ok(Text::copy_of(alloc, text)?),
        _ => Err(bad_field(alloc, item, member)),
    }
}

// The port of HTTPS where none is named.
#[tactic(auto, unfolding(crate::specs::Object::port_of))]
fn port_of(alloc: Global, item: Option<usize>, service: &Value) -> Result<u64, RowFault>
    ensures { Gives (λ n. n) result (spec.port_of item (view service.now)) }
{
    let found = present(service, "port");
    if found.is_none() {
        return Ok(443);
    }
    match whole_in(found) {
        Some(port) => Ok(port),
        None => Err(bad_field(alloc, item, "spec.service.port")),
    }
}

#[tactic(auto, unfolding(crate::specs::Object::present_service))]
fn present_service(
    alloc: Global,
    item: Option<usize>,
    service: &Value,
) -> Result<FoundService, RowFault>
    ensures { Gives (λ s. s) result (spec.present_service item (view service.now)) }
{
    let namespace = service_text(alloc, item, "spec.service.namespace", "namespace", service)?;
    let name = service_text(alloc, item, "spec.service.name", "name", service)?;
    let port = port_of(alloc, item, service)?;
    Ok(FoundService {
        namespace,
        name,
        port,
    })
}

fn some_service(
    alloc: Global,
    item: Option<usize>,
    found: &Value,
) -> Result<Option<FoundService>, RowFault>
    ensures { Gives (λ s. s) result (spec.some_service item (view found.now)) }
{
    if !found.is_object() {
        return Err(bad_field(alloc, item, "spec.service"));
    }
    Ok(Some(present_service(alloc, item, found)?))
}

#[tactic(auto, unfolding(crate::specs::Object::service_of))]
pub fn service_of(
    alloc: Global,
    item: Option<usize>,
    value: &Value,
) -> Result<Option<FoundService>, RowFault>
    ensures { Gives (λ s. s) result (spec.service_of item (view value.now)) }
{
    match inner(value, "spec", "service") {
        None => Ok(None),
        Some(found) => some_service(alloc, item, found),
    }
}

fn are_objects(items: &Vec<Value>) -> bool
    ensures { result ≡ spec.are_objects (items_view items.now.items) }
{
    for item in items {
        if !item.is_object() {
            return false;
        }
    }
    true
}

// Whether the first condition of type `Available` has the status `True`, or there is none.
fn is_available(conditions: &Vec<Value>) -> bool
    ensures { result ≡ spec.is_available (items_view conditions.now.items) }
{
    for condition in conditions {
        if is_text("Available", present(condition, "type")) {
            return is_text("True", present(condition, "status"));
        }
    }
    true
}

fn available_by(
    alloc: Global,
    item: Option<usize>,
    conditions: &Vec<Value>,
) -> Result<bool, RowFault>
    ensures { Gives (λ b. b) result (spec.available_by item (items_view conditions.now.items)) }
{
    if !are_objects(conditions) {
        return Err(bad_field(alloc, item, "status.conditions"));
    }
    Ok(is_available(conditions))
}

fn conditions_in(
    alloc: Global,
    item: Option<usize>,
    found: Option<&Value>,
) -> Result<bool, RowFault>
    ensures { Gives (λ b. b) result (spec.conditions_in item (option_map (λ v. view v.now) found.entry)) }
{
    match found {
        None => Ok(true),
        Some(Value::Array(conditions)) => available_by(alloc, item, conditions),
        Some(_) => Err(bad_field(alloc, item, "status.conditions")),
    }
}

fn some_status(alloc: Global, item: Option<usize>, status: &Value) -> Result<bool, RowFault>
    ensures { Gives (λ b. b) result (spec.some_status item (view status.now)) }
{
    if !status.is_object() {
        return Err(bad_field(alloc, item, "status"));
    }
    conditions_in(alloc, item, present(status, "conditions"))
}

// Available where no condition says otherwise.
#[tactic(auto, unfolding(crate::specs::Object::available_of))]
pub fn available_of(alloc: Global, item: Option<usize>, value: &Value) -> Result<bool, RowFault>
    ensures { Gives (λ b. b) result (spec.available_of item (view value.now)) }
{
    match present(value, "status") {
        None => Ok(true),
        Some(status) => some_status(alloc, item, status),
    }
}
