// Whether an event agrees with its request.
ghost use Rattle.std.specs.Prelude.{◌≡◌, ◌&&◌, IfOk};
ghost use Rattle.stage_event.specs.Due.{reply_due, request_due};
ghost use Rattle.audit_check.specs.Agreement as spec;

use crate::users::{is_acting_in_place, is_user_in_place};
use front_base::{Info, NoMemory, Stage};
use request_info::audit_info;
use stage_event::{Event, ObjectRef, object_ref, reply_due, request_due};
use std::alloc::Global;

// What the request asked for.
pub fn info_of(alloc: Global, event: &Event) -> Result<Info, NoMemory>
    ensures { IfOk result (λ info. info ≡ spec.info_of event.now) }
{
    let verb = event.verb.copy(alloc)?;
    let mut info = audit_info(alloc, "GET", event.target.as_str())?;
    info.verb = verb;
    Ok(info)
}

fn is_same_reference(one: &ObjectRef, other: &ObjectRef) -> bool
    ensures { result ≡ spec.is_same_reference one.now other.now }
{
    one.resource.as_str() == other.resource.as_str()
        && one.namespace.as_str() == other.namespace.as_str()
        && one.name.as_str() == other.name.as_str()
        && one.group.as_str() == other.group.as_str()
        && one.version.as_str() == other.version.as_str()
        && one.subresource.as_str() == other.subresource.as_str()
}

fn is_same_object(one: &Option<ObjectRef>, other: &Option<ObjectRef>) -> bool
    ensures { result ≡ spec.is_same_object one.now other.now }
{
    match (one, other) {
        (Some(one), Some(other)) => is_same_reference(one, other),
        (None, None) => true,
        _ => false,
    }
}

fn is_answered(stage: Stage) -> bool
    ensures { result ≡ spec.is_answered stage }
{
    !matches!(stage, Stage::RequestReceived)
}

fn is_complete(stage: Stage) -> bool
    ensures { result ≡ spec.is_complete stage }
{
    matches!(stage, Stage::ResponseComplete)
}

fn is_status_in_place(event: &Event) -> bool
    ensures { result ≡ spec.status_in_place event.now }
{
    if is_answered(event.stage) {
        event.code.is_some()
    } else {
        event.code.is_none()
    }
}

// Whether the request's body may stand.
fn may_show_request(event: &Event, info: &Info) -> bool
    ensures { result ≡ (spec.is_answered event.now.stage && request_due event.now.level info.now) }
{
    is_answered(event.stage) && request_due(event.level, info)
}

// Whether the reply's body may stand.
fn may_show_reply(event: &Event, info: &Info) -> bool
    ensures { result ≡ (spec.is_complete event.now.stage && reply_due event.now.level info.now) }
{
    is_complete(event.stage) && reply_due(event.level, info)
}

fn is_request_in_place(event: &Event, info: &Info) -> bool
    ensures { result ≡ spec.request_in_place info.now event.now }
{
    event.request_object.is_none() || may_show_request(event, info)
}

fn is_response_in_place(event: &Event, info: &Info) -> bool
    ensures { result ≡ spec.response_in_place info.now event.now }
{
    event.response_object.is_none() || may_show_reply(event, info)
}

fn is_truncated_in_place(event: &Event, info: &Info) -> bool
    ensures { result ≡ spec.truncated_in_place info.now event.now }
{
    !event.truncated || may_show_request(event, info) || may_show_reply(event, info)
}

fn are_bodies_in_place(event: &Event, info: &Info) -> bool
    ensures { result ≡ spec.bodies_in_place info.now event.now }
{
    is_request_in_place(event, info)
        && is_response_in_place(event, info)
        && is_truncated_in_place(event, info)
}

fn are_users_in_place(event: &Event) -> bool
    ensures { result ≡ spec.users_in_place event.now }
{
    is_user_in_place(&event.user) && is_acting_in_place(&event.user, &event.impersonated)
}

// Whether a request for this may have such an event.
pub fn is_in_place(alloc: Global, event: &Event, info: &Info) -> Result<bool, NoMemory>
    ensures { IfOk result (λ yes. yes ≡ spec.is_in_place info.now event.now) }
{
    let named = object_ref(alloc, info)?;
    let same = is_same_object(&event.object_ref, &named);
    drop(named);
    Ok(
        same && is_status_in_place(event)
            && are_bodies_in_place(event, info)
            && are_users_in_place(event),
    )
}
