ghost use Rattle.std.specs.Prelude.{◌≡◌, ◌≤◌, ◌<◌, ◌^◌, false, Some, IfOk, OnOk, string_bytes};
ghost use Rattle.serde_json.specs.View.{view};
ghost use Rattle.serde_json.specs.Written.{has_float, compact_text};
ghost use Rattle.apiservice_rows.specs.Fault.{Gives};
ghost use Rattle.apiservice_rows.specs.Object as spec;
ghost use Rattle.apiservice_rows.specs.Row.{own_name, IsRowName};

use crate::fault::{RowFault, out_of_range};
use crate::members::{
    available_of, check_head, group_number_of, group_of, name_of, service_of, version_number_of,
    version_of,
};
use crate::row::Row;
use crate::service::{FoundService, ServiceRef};
use front_base::{Bytes, Text};
use json_value::read_value;
use serde_json::Value;
use std::alloc::{AllocError, Global};

// The name that a version of a group has.
fn own_name(alloc: Global, version: &str, group: &str) -> Result<String, AllocError>
    ensures { IfOk result (λ name. string_bytes name ≡ own_name version.now group.now) }
{
    format!(in alloc; "{version}.{group}")
}

// The name is the version, a dot and the group.
#[tactic(auto, unfolding(crate::specs::Object::name_check))]
fn check_name(
    alloc: Global,
    item: Option<usize>,
    name: &Text,
    version: &Text,
    group: &Text,
) -> Result<(), RowFault>
    ensures value { Gives (λ u. u) result (spec.name_check item name.now version.now group.now) }
    ensures same { OnOk result (name.now ≡ own_name version.now group.now) }
{
    let own = own_name(alloc, version.as_str(), group.as_str())?;
    if name.as_str() == own.as_str() {
        Ok(())
    } else {
        Err(RowFault::NameMismatch { item })
    }
}

// The number, where it is from 1 to most.
#[tactic(auto, unfolding(crate::specs::Object::ranged))]
fn ranged(
    alloc: Global,
    item: Option<usize>,
    member: &str,
    most: u32,
    number: u64,
) -> Result<u32, RowFault>
    ensures value { Gives (λ n. n) result (spec.ranged item member.now most number) }
    ensures within { IfOk result (λ n. n ≤ most) }
{
    if 0 < number && number <= most as u64 {
        Ok(number as u32)
    } else {
        Err(out_of_range(alloc, item, member))
    }
}

#[tactic(auto, unfolding(crate::specs::Object::group_ranged))]
fn group_ranged(alloc: Global, item: Option<usize>, number: u64) -> Result<u32, RowFault>
    ensures { Gives (λ n. n) result (spec.group_ranged item number) }
{
    ranged(alloc, item, "spec.groupPriorityMinimum", 20000, number)
}

#[tactic(auto, unfolding(crate::specs::Object::version_ranged))]
fn version_ranged(alloc: Global, item: Option<usize>, number: u64) -> Result<u32, RowFault>
    ensures { Gives (λ n. n) result (spec.version_ranged item number) }
{
    ranged(alloc, item, "spec.versionPriority", 1000, number)
}

#[tactic(auto, unfolding(crate::specs::Object::ranged_service))]
fn ranged_service(
    alloc: Global,
    item: Option<usize>,
    found: Option<FoundService>,
) -> Result<Option<ServiceRef>, RowFault>
    ensures { Gives (λ s. s) result (spec.ranged_service item found) }
{
    let Some(
        FoundService {
            namespace,
            name,
            port,
        },
    ) = found
    else {
        return Ok(None);
    };
    let port = ranged(alloc, item, "spec.service.port", 65535, port)? as u16;
    Ok(Some(ServiceRef {
        namespace,
        name,
        port,
    }))
}

// The text that `serde_json` writes for a value without floats.
fn object_text(alloc: Global, value: &Value) -> Result<Bytes, RowFault>
    requires { has_float (view value.now) ≡ false }
    ensures { Gives (λ b. b) result (Ok (compact_text (view value.now))) }
{
    let text = value.to_string(alloc)?;
    Ok(Bytes::new(text.into_bytes()))
}

// The row of an object that stands alone or, at that place, in a list.
#[tactic(auto, unfolding(crate::specs::Object::row_of))]
pub fn row_of(alloc: Global, item: Option<usize>, value: &Value) -> Result<Row, RowFault>
    ensures { Gives (λ r. r) result (spec.row_of item (view value.now)) }
{
    check_head(alloc, item, value)?;
    let name = name_of(alloc, item, value)?;
    let group = group_of(alloc, item, value)?;
    let version = version_of(alloc, item, value)?;
    let group_number = group_number_of(alloc, item, value)?;
    let version_number = version_number_of(alloc, item, value)?;
    let found = service_of(alloc, item, value)?;
    let available = available_of(alloc, item, value)?;
    check_name(alloc, item, &name, &version, &group)?;
    let group_priority = group_ranged(alloc, item, group_number)?;
    let version_priority = version_ranged(alloc, item, version_number)?;
    let service = ranged_service(alloc, item, found)?;
    let object = object_text(alloc, value)?;
    Ok(Row {
        name,
        group,
        version,
        group_priority,
        version_priority,
        service,
        available,
        object,
    })
}

/// The row of one APIService object in JSON (`apiregistration.k8s.io/v1`), or the first of its faults.
#[tactic(auto, unfolding(crate::specs::Object::read_row))]
pub fn read_row(alloc: Global, bytes: &[u8]) -> Result<Row, RowFault>
    ensures { Gives (λ r. r) result (spec.read_row bytes.now) }
{
    let value = read_value(alloc, bytes)?;
    row_of(alloc, None, &value)
}
