ghost use Rattle.std.specs.Prelude.{◌≡◌, [], ◌∷◌, ◌++◌, codes, IfOk, OnOk, OnErr};
ghost use Rattle.front_base.specs.AuditId as base;
ghost use Rattle.event_text.specs.Members as members;
ghost use Rattle.event_text.specs.Members.{after_commas, joined};
ghost use Rattle.event_text.specs.Line as spec;

use crate::members::{push_name, push_text};
use crate::reply::{body_length, push_reply, push_status_if_any};
use crate::request::push_request;
use crate::tail::Tail;
use crate::times::push_times;
use front_base::{AuditId, Bytes, NoMemory};
use stage_event::Event;
use std::alloc::Global;
use std::mem;

// Most lines without bodies fit into so many bytes.
const USUAL_BYTES: usize = 1024;

// Room for the objects, and for what most lines have beside them.
fn usual_length(event: &Event) -> usize {
    let objects = body_length(&event.request_object).saturating_add(body_length(
        &event.response_object,
    ));
    objects.saturating_add(USUAL_BYTES)
}

fn push_audit_id(out: &mut Tail, id: AuditId) -> Result<(), NoMemory>
    ensures ok { OnOk result (out.new.written
        ≡ out.old.written ++ after_commas (members.text (codes "auditID") (base.audit_id_text id) ∷ [])) }
    ensures before { out.new.before ≡ out.old.before }
{
    push_name(out, "auditID")?;
    out.audit_id(id)
}

// Which event it is: the members that are always first, the first of them without a comma.
fn push_event(out: &mut Tail, event: &Event) -> Result<(), NoMemory>
    ensures ok { OnOk result (out.new.written ≡ out.old.written ++ joined (spec.event_members event.now)) }
    ensures before { out.new.before ≡ out.old.before }
{
    out.extend(b"\"kind\":\"Event\",\"apiVersion\":\"audit.k8s.io/v1\"")?;
    push_text(out, "level", event.level.name())?;
    push_audit_id(out, event.id)?;
    push_text(out, "stage", event.stage.name())?;
    Ok(())
}

fn push_whole(out: &mut Tail, event: &Event) -> Result<(), NoMemory>
    ensures ok { OnOk result (out.old.written ≡ [] → out.new.written ≡ spec.line_text event.now) }
    ensures before { out.new.before ≡ out.old.before }
{
    out.extend(b"{")?;
    push_event(out, event)?;
    push_request(out, event)?;
    push_reply(out, event)?;
    push_times(out, event, event.truncated)?;
    out.extend(b"}")?;
    Ok(())
}

fn push_stripped(out: &mut Tail, event: &Event) -> Result<(), NoMemory>
    ensures ok { OnOk result (out.old.written ≡ [] → out.new.written ≡ spec.line_text (spec.stripped event.now)) }
    ensures before { out.new.before ≡ out.old.before }
{
    out.extend(b"{")?;
    push_event(out, event)?;
    push_request(out, event)?;
    push_status_if_any(out, event.code)?;
    push_times(out, event, true)?;
    out.extend(b"}")?;
    Ok(())
}

/// Writes the event's line after what is there, without a line feed. Where memory runs out, what is there stays as it
/// was.
pub fn push_line(out: &mut Vec<u8>, event: &Event) -> Result<(), NoMemory>
    ensures ok { OnOk result (out.new.items ≡ out.old.items ++ spec.line_text event.now) }
    ensures kept { OnErr result (out.new.items ≡ out.old.items) }
{
    out.reserve(usual_length(event))?;
    let alloc = *out.allocator();
    let mut tail = Tail::after(mem::replace(out, Vec::new(alloc)));
    match push_whole(&mut tail, event) {
        Ok(()) => {
            *out = tail.into_bytes();
            Ok(())
        }
        Err(fault) => {
            *out = tail.take_back();
            Err(fault)
        }
    }
}

/// The event as one line of JSON without white space, without a line feed.
pub fn line(alloc: Global, event: &Event) -> Result<Bytes, NoMemory>
    ensures { IfOk result (λ line. line ≡ spec.line_text event.now) }
{
    let mut out = Vec::new(alloc);
    push_line(&mut out, event)?;
    Ok(Bytes::new(out))
}

/// The line of the event without its objects, which says that they were taken out.
pub fn stripped_line(alloc: Global, event: &Event) -> Result<Bytes, NoMemory>
    ensures { IfOk result (λ line. line ≡ spec.line_text (spec.stripped event.now)) }
{
    let mut tail = Tail::after(Vec::with_capacity(alloc, USUAL_BYTES)?);
    push_stripped(&mut tail, event)?;
    Ok(Bytes::new(tail.into_bytes()))
}
