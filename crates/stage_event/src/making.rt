ghost use Rattle.std.specs.Prelude.{◌≡◌, ◌≢◌, IfOk, Some, None};
ghost use Rattle.stage_event.specs.Due.{request_due, reply_due};
ghost use Rattle.stage_event.specs.Views as views;
ghost use Rattle.stage_event.specs.Events as spec;

use crate::due::{reply_due, request_due};
use crate::event::{Event, ObjectRef};
use crate::facts::{Facts, Kept};
use front_base::{Bytes, Info, Level, Moment, NoMemory, Stage, Text, User};
use std::alloc::Global;

fn object_of(alloc: Global, kept: &Kept) -> Result<Option<Bytes>, NoMemory>
    ensures { IfOk result (λ object. object ≡ spec.object kept.now) }
{
    match kept {
        Kept::Compact(text) => Ok(Some(text.copy(alloc)?)),
        _ => Ok(None),
    }
}

fn shown_object(alloc: Global, shows: bool, kept: &Kept) -> Result<Option<Bytes>, NoMemory>
    ensures { IfOk result (λ object. object ≡ spec.object (views.shown_if shows kept.now)) }
{
    if shows {
        object_of(alloc, kept)
    } else {
        Ok(None)
    }
}

fn request_object(
    alloc: Global,
    stage: Stage,
    level: Level,
    facts: &Facts,
) -> Result<Option<Bytes>, NoMemory>
    ensures { IfOk result (λ object.
        object ≡ spec.request_object stage (views.shown_if (request_due level facts.now.info) facts.now.request)) }
{
    match stage {
        Stage::RequestReceived => Ok(None),
        _ => shown_object(alloc, request_due(level, &facts.info), &facts.request),
    }
}

fn response_object(
    alloc: Global,
    stage: Stage,
    level: Level,
    facts: &Facts,
) -> Result<Option<Bytes>, NoMemory>
    ensures { IfOk result (λ object.
        object ≡ spec.response_object stage (views.shown_if (reply_due level facts.now.info) facts.now.reply)) }
{
    match stage {
        Stage::ResponseComplete => {
            shown_object(alloc, reply_due(level, &facts.info), &facts.reply)
        }
        _ => Ok(None),
    }
}

fn code(stage: Stage, status: u16) -> Option<u16>
    ensures { result ≡ spec.code stage status }
{
    match stage {
        Stage::RequestReceived => None,
        _ => Some(status),
    }
}

fn started(facts: &Facts) -> Moment
    ensures { result ≡ views.started facts.now }
{
    if facts.info.is_long_running() {
        facts.started
    } else {
        Moment::epoch()
    }
}

fn moment(stage: Stage, facts: &Facts) -> Moment
    ensures { result ≡ spec.moment stage facts.now.received (views.started facts.now) facts.now.complete }
{
    match stage {
        Stage::RequestReceived => facts.received,
        Stage::ResponseStarted => started(facts),
        Stage::ResponseComplete | Stage::Panic => facts.complete,
    }
}

fn is_named(info: &Info) -> bool
    ensures { result ≡ spec.is_named (spec.reference info.now) }
{
    !(info.resource.as_str().is_empty()
        && info.namespace.as_str().is_empty()
        && info.name.as_str().is_empty()
        && info.group.as_str().is_empty()
        && info.version.as_str().is_empty()
        && info.subresource.as_str().is_empty())
}

fn reference(alloc: Global, info: &Info) -> Result<ObjectRef, NoMemory>
    ensures { IfOk result (λ reference. reference ≡ spec.reference info.now) }
{
    Ok(ObjectRef {
        resource: info.resource.copy(alloc)?,
        namespace: info.namespace.copy(alloc)?,
        name: info.name.copy(alloc)?,
        group: info.group.copy(alloc)?,
        version: info.version.copy(alloc)?,
        subresource: info.subresource.copy(alloc)?,
    })
}

/// The object that an event names: that of a request for a resource, where a resource, a namespace or a name is given.
pub fn object_ref(alloc: Global, info: &Info) -> Result<Option<ObjectRef>, NoMemory>
    ensures { IfOk result (λ named. named ≡ spec.object_ref info.now) }
{
    if info.resource_request && is_named(info) {
        Ok(Some(reference(alloc, info)?))
    } else {
        Ok(None)
    }
}

fn copy_of(alloc: Global, user: &Option<User>) -> Result<Option<User>, NoMemory>
    ensures { IfOk result (λ copy. copy ≡ user.now) }
{
    match user {
        Some(user) => Ok(Some(user.copy(alloc)?)),
        None => Ok(None),
    }
}

// Who asked for what, as every event says it.
#[derive(Drop)]
struct Asked {
    target: Text,
    verb: Text,
    user: User,
    acting: Option<User>,
    agent: Text,
}

fn copy_asked(alloc: Global, facts: &Facts) -> Result<Asked, NoMemory>
    ensures { IfOk result (λ asked. (asked.target ≡ facts.now.target) × (asked.verb ≡ facts.now.info.verb)
        × (asked.user ≡ facts.now.user) × (asked.acting ≡ facts.now.acting) × (asked.agent ≡ facts.now.agent)) }
{
    Ok(Asked {
        target: facts.target.copy(alloc)?,
        verb: facts.info.verb.copy(alloc)?,
        agent: facts.agent.copy(alloc)?,
        acting: copy_of(alloc, &facts.acting)?,
        user: facts.user.copy(alloc)?,
    })
}

// The object that the request names, and the bodies.
#[derive(Drop)]
struct Objects {
    named: Option<ObjectRef>,
    request: Option<Bytes>,
    reply: Option<Bytes>,
}

fn copy_objects(
    alloc: Global,
    stage: Stage,
    level: Level,
    facts: &Facts,
) -> Result<Objects, NoMemory>
    ensures { IfOk result (λ it. (it.named ≡ spec.object_ref facts.now.info)
        × (it.request ≡ spec.request_object stage (views.shown_if (request_due level facts.now.info) facts.now.request))
        × (it.reply ≡ spec.response_object stage (views.shown_if (reply_due level facts.now.info) facts.now.reply))) }
{
    Ok(Objects {
        request: request_object(alloc, stage, level, facts)?,
        reply: response_object(alloc, stage, level, facts)?,
        named: object_ref(alloc, &facts.info)?,
    })
}

/// The event of a request at a stage, as its level records it. It isn't truncated.
pub fn event_at(alloc: Global, stage: Stage, level: Level, facts: &Facts) -> Result<Event, NoMemory>
    requires level { level ≢ Level.None }
    requires stage { stage ≢ Stage.Panic }
    ensures { IfOk result (λ event. event ≡ spec.event stage level facts.now) }
{
    let objects = copy_objects(alloc, stage, level, facts)?;
    let asked = copy_asked(alloc, facts)?;
    Ok(Event {
        level,
        id: facts.id,
        stage,
        target: asked.target,
        verb: asked.verb,
        user: asked.user,
        impersonated: asked.acting,
        peer: facts.peer,
        agent: asked.agent,
        object_ref: objects.named,
        code: code(stage, facts.status),
        request_object: objects.request,
        response_object: objects.reply,
        received: facts.received,
        at: moment(stage, facts),
        truncated: false,
    })
}

fn object_from(shows: bool, kept: Kept) -> Option<Bytes>
    ensures { result ≡ spec.object (views.shown_if shows kept) }
{
    match kept {
        Kept::Compact(text) => { if shows { Some(text) } else { None } }
        _ => None,
    }
}

fn request_object_from(stage: Stage, shows: bool, kept: Kept) -> Option<Bytes>
    ensures { result ≡ spec.request_object stage (views.shown_if shows kept) }
{
    object_from(shows && stage != Stage::RequestReceived, kept)
}

fn response_object_from(stage: Stage, shows: bool, kept: Kept) -> Option<Bytes>
    ensures { result ≡ spec.response_object stage (views.shown_if shows kept) }
{
    object_from(shows && stage == Stage::ResponseComplete, kept)
}

// The verb, and the object that the request names, if any.
fn asked_of(info: Info) -> (Text, Option<ObjectRef>)
    ensures verb { result.0 ≡ info.verb }
    ensures object { result.1 ≡ spec.object_ref info }
{
    let named = info.resource_request && is_named(&info);
    let Info {
        verb,
        group,
        version,
        namespace,
        resource,
        subresource,
        name,
        ..
    } = info;
    let object = ObjectRef {
        resource,
        namespace,
        name,
        group,
        version,
        subresource,
    };
    if named {
        (verb, Some(object))
    } else {
        (verb, None)
    }
}

/// The event that `event_at` gives, made of the facts themselves: nothing is copied. It serves a request's last event.
pub fn event_from(stage: Stage, level: Level, facts: Facts) -> Event
    requires level { level ≢ Level.None }
    requires stage { stage ≢ Stage.Panic }
    ensures { result ≡ spec.event stage level facts }
{
    let code = code(stage, facts.status);
    let at = moment(stage, &facts);
    let shows_request = request_due(level, &facts.info);
    let shows_reply = reply_due(level, &facts.info);
    let Facts {
        id,
        target,
        info,
        user,
        acting,
        peer,
        agent,
        request,
        reply,
        received,
        ..
    } = facts;
    let (verb, object_ref) = asked_of(info);
    Event {
        level,
        id,
        stage,
        target,
        verb,
        user,
        impersonated: acting,
        peer,
        agent,
        object_ref,
        code,
        request_object: request_object_from(stage, shows_request, request),
        response_object: response_object_from(stage, shows_reply, reply),
        received,
        at,
        truncated: false,
    }
}
