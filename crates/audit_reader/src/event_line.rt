// A whole event, part by part in the order of its members.
ghost use Rattle.std.specs.Prelude.{◌≡◌, true, IfOk};
ghost use Rattle.event_text.specs.Line.{line_text};
ghost use Rattle.audit_reader.specs.Plain as plain;
ghost use Rattle.event_members.specs.TextMembers.{Gives};
ghost use Rattle.audit_reader.specs.EventLine as spec;
ghost use Rattle.stage_event.specs.declared.event.Event.{Event};

use crate::compact_body::body_if;
use crate::fits::event_fits;
use crate::laws::reads_back;
use crate::moment_text::{if_moment, micros_of_member};
use crate::plain::is_plain;
use event_members::{
    EventFault, after, after_if, code_if, impersonated_of, level_of, object_ref_of, peer_of,
    skip_comma, stage_of, text_if, text_member, user_of,
};
use event_text::line;
use front_base::{AuditId, Bytes, Level, Moment, Stage, Text, User};
use stage_event::{Event, ObjectRef};
use stamp_text::audit_id_of;
use std::alloc::Global;

#[tactic(auto, unfolding(crate::specs::EventLine::which_at))]
fn which_of(alloc: Global, bytes: &[u8]) -> Result<((Level, Text, Stage), &[u8]), EventFault>
    ensures { Gives (λ x. (x.0, x.1.now)) result (spec.which_at bytes.now) }
{
    let rest = after(
        bytes,
        b"{\"kind\":\"Event\",\"apiVersion\":\"audit.k8s.io/v1\",",
    )?;
    let (level, rest) = level_of(alloc, rest)?;
    let (id, rest) = text_member(alloc, rest, b"\"auditID\":")?;
    let (stage, rest) = stage_of(alloc, rest)?;
    Ok(((level, id, stage), rest))
}

#[tactic(auto, unfolding(crate::specs::EventLine::user_member_at))]
fn user_member(alloc: Global, bytes: &[u8]) -> Result<(User, &[u8]), EventFault>
    ensures { Gives (λ x. (x.0, x.1.now)) result (spec.user_member_at bytes.now) }
{
    user_of(alloc, after(bytes, b"\"user\":")?)
}

#[tactic(auto, unfolding(crate::specs::EventLine::who_at))]
fn who_of(
    alloc: Global,
    bytes: &[u8],
) -> Result<((Text, Text, User, Option<User>), &[u8]), EventFault>
    ensures { Gives (λ x. (x.0, x.1.now)) result (spec.who_at bytes.now) }
{
    let (target, rest) = text_member(alloc, bytes, b"\"requestURI\":")?;
    let (verb, rest) = text_member(alloc, rest, b"\"verb\":")?;
    let (user, rest) = user_member(alloc, rest)?;
    let (impersonated, rest) = impersonated_of(alloc, rest)?;
    Ok(((target, verb, user, impersonated), rest))
}

#[tactic(auto, unfolding(crate::specs::EventLine::from_at))]
fn from_of(
    alloc: Global,
    bytes: &[u8],
) -> Result<(([u8; 4], Text, Option<ObjectRef>), &[u8]), EventFault>
    ensures { Gives (λ x. (x.0, x.1.now)) result (spec.from_at bytes.now) }
{
    let (peer, rest) = peer_of(bytes)?;
    let (agent, rest) = text_if(alloc, rest, b"\"userAgent\":")?;
    let (object, rest) = object_ref_of(alloc, rest)?;
    Ok(((peer, agent, object), rest))
}

#[tactic(auto, unfolding(crate::specs::EventLine::reply_at))]
fn reply_of(
    alloc: Global,
    bytes: &[u8],
) -> Result<((Option<u16>, Option<Bytes>, Option<Bytes>), &[u8]), EventFault>
    ensures { Gives (λ x. (x.0, x.1.now)) result (spec.reply_at bytes.now) }
{
    let (code, rest) = code_if(bytes)?;
    let (request, rest) = body_if(alloc, rest, b"\"requestObject\":")?;
    let (response, rest) = body_if(alloc, rest, b"\"responseObject\":")?;
    Ok(((code, request, response), rest))
}

fn truncated_of(bytes: &[u8]) -> (bool, &[u8])
    ensures flag { result.0 ≡ (spec.truncated_at bytes.now).0 }
    ensures rest { result.1.now ≡ (spec.truncated_at bytes.now).1 }
{
    match after_if(
        bytes,
        b"\"annotations\":{\"audit.k8s.io/truncated\":\"true\"}",
    ) {
        Some(rest) => (true, skip_comma(rest)),
        None => (false, bytes),
    }
}

#[tactic(auto, unfolding(crate::specs::EventLine::times_at))]
fn times_of(alloc: Global, bytes: &[u8]) -> Result<((u64, u64, bool), &[u8]), EventFault>
    ensures { Gives (λ x. (x.0, x.1.now)) result (spec.times_at bytes.now) }
{
    let (received, rest) = micros_of_member(alloc, bytes, b"\"requestReceivedTimestamp\":")?;
    let (at, rest) = micros_of_member(alloc, rest, b"\"stageTimestamp\":")?;
    let (truncated, rest) = truncated_of(rest);
    Ok(((received, at, truncated), rest))
}

#[tactic(auto, unfolding(crate::specs::EventLine::made_of))]
fn made_of(
    which: (Level, Text, Stage),
    who: (Text, Text, User, Option<User>),
    from: ([u8; 4], Text, Option<ObjectRef>),
    reply: (Option<u16>, Option<Bytes>, Option<Bytes>),
    times: (u64, u64, bool),
) -> Option<Event>
    ensures { result ≡ spec.made_of which who from reply times }
{
    let id = audit_id_of(which.1.as_str())?;
    let received = if_moment(times.0)?;
    let at = if_moment(times.1)?;
    let peer = from.0;
    Some(Event {
        level: which.0,
        id,
        stage: which.2,
        target: who.0,
        verb: who.1,
        user: who.2,
        impersonated: who.3,
        peer,
        agent: from.1,
        object_ref: from.2,
        code: reply.0,
        request_object: reply.1,
        response_object: reply.2,
        received,
        at,
        truncated: times.2,
    })
}

#[tactic(auto, unfolding(crate::specs::EventLine::end_at))]
fn end_of(bytes: &[u8]) -> Result<&[u8], EventFault>
    ensures { Gives (λ rest. rest.now) result (spec.end_at bytes.now) }
{
    let rest = after(bytes, b"}")?;
    if rest.is_empty() {
        Ok(rest)
    } else {
        Err(EventFault::NotAnEvent)
    }
}

#[tactic(auto, unfolding(crate::specs::EventLine::event_at))]
fn event_of(alloc: Global, bytes: &[u8]) -> Result<Event, EventFault>
    ensures { Gives (λ e. e) result (spec.event_at bytes.now) }
{
    let (which, rest) = which_of(alloc, bytes)?;
    let (who, rest) = who_of(alloc, rest)?;
    let (from, rest) = from_of(alloc, rest)?;
    let (reply, rest) = reply_of(alloc, rest)?;
    let (times, rest) = times_of(alloc, rest)?;
    let _end = end_of(rest)?;
    match made_of(which, who, from, reply, times) {
        Some(event) => Ok(event),
        None => Err(EventFault::NotAnEvent),
    }
}

/// The plain event whose line the text is.
pub fn read_event(alloc: Global, text: &[u8]) -> Result<Event, EventFault>
    ensures found { IfOk result (λ e. plain.Fits e × plain.IsPlain e × (line_text e ≡ text.now)) }
    ensures only { (e : Event) → plain.Fits e → plain.IsPlain e → line_text e ≡ text.now → plain.Reads result e }
{
    reads_back();
    let event = event_of(alloc, text)?;
    if !is_plain(alloc, &event)? {
        return Err(EventFault::NotAnEvent);
    }
    if line(alloc, &event)?.as_slice() == text {
        event_fits(&event);
        Ok(event)
    } else {
        Err(EventFault::NotAnEvent)
    }
}
