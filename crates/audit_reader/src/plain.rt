// Whether an event is plain, as those are that are written.
ghost use Rattle.std.specs.Prelude.{◌≡◌};
ghost use Rattle.audit_reader.specs.Plain as plain;

use crate::compact_body::is_plain_body;
use event_members::EventFault;
use front_base::{Level, Stage, User};
use stage_event::{Event, ObjectRef};
use std::alloc::Global;

fn is_somebody(user: &Option<User>) -> bool
    ensures { result ≡ plain.somebody_or_none user.now }
{
    match user {
        Some(user) => {
            !(user.name.as_str().is_empty()
                && user.uid.as_str().is_empty()
                && user.groups.as_slice().is_empty())
        }
        None => true,
    }
}

fn is_named(object: &Option<ObjectRef>) -> bool
    ensures { result ≡ plain.named_or_none object.now }
{
    match object {
        Some(object) => {
            !(object.resource.as_str().is_empty()
                && object.namespace.as_str().is_empty()
                && object.name.as_str().is_empty()
                && object.group.as_str().is_empty()
                && object.version.as_str().is_empty()
                && object.subresource.as_str().is_empty())
        }
        None => true,
    }
}

fn is_stripped_or_whole(event: &Event) -> bool
    ensures { result ≡ plain.stripped_or_whole event.now }
{
    !event.truncated || event.request_object.is_none() && event.response_object.is_none()
}

fn is_level(level: Level) -> bool
    ensures { result ≡ plain.is_level level }
{
    !matches!(level, Level::None)
}

fn is_stage(stage: Stage) -> bool
    ensures { result ≡ plain.is_stage stage }
{
    !matches!(stage, Stage::Panic)
}

pub fn is_plain(alloc: Global, event: &Event) -> Result<bool, EventFault>
    ensures { plain.Tells result (plain.IsPlain event.now) }
{
    if !is_level(event.level) || !is_stage(event.stage) {
        return Ok(false);
    }
    if !is_somebody(&event.impersonated) || !is_named(&event.object_ref) {
        return Ok(false);
    }
    if !is_stripped_or_whole(event) || !is_plain_body(alloc, &event.request_object)? {
        return Ok(false);
    }
    is_plain_body(alloc, &event.response_object)
}
