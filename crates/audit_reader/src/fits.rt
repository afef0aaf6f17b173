// What every event meets, by the types of its fields. Contracts see texts and numbers without these bounds.
ghost use Rattle.std.specs.Prelude.{◌<◌, ◌^◌, IfSome};
ghost use Rattle.std.specs.List.{AllByRecursion};
ghost use Rattle.front_base.specs.declared.moment.TheConstants.{MOMENT_END};
ghost use Rattle.event_members.specs.Ranges as ranges;
ghost use Rattle.event_members.specs.Ranges.{IsUtf8};
ghost use Rattle.audit_reader.specs.Plain as plain;

use front_base::{AuditId, Moment, Text, Texts, User};
use stage_event::{Event, ObjectRef};

fn text_fits(text: &Text)
    ensures { IsUtf8 text.now }
{
    let _text = text.as_str();
}

fn groups_fit(groups: &Texts)
    ensures { AllByRecursion IsUtf8 groups.now }
{
    for group in groups.as_slice() {
        text_fits(group);
    }
}

fn user_fits(user: &User)
    ensures { ranges.IsUser user.now }
{
    text_fits(&user.name);
    text_fits(&user.uid);
    groups_fit(&user.groups);
}

fn impersonated_fits(user: &Option<User>)
    ensures { IfSome user.now ranges.IsUser }
{
    if let Some(user) = user {
        user_fits(user);
    }
}

fn reference_fits(object: &ObjectRef)
    ensures { ranges.IsReference object.now }
{
    text_fits(&object.resource);
    text_fits(&object.namespace);
    text_fits(&object.name);
    text_fits(&object.group);
    text_fits(&object.version);
    text_fits(&object.subresource);
}

fn object_fits(object: &Option<ObjectRef>)
    ensures { IfSome object.now ranges.IsReference }
{
    if let Some(object) = object {
        reference_fits(object);
    }
}

fn peer_fits(peer: [u8; 4])
    ensures { ranges.IsPeer peer }
{
    let [_, _, _, _] = peer;
}

fn code_fits(code: Option<u16>)
    ensures { IfSome code (λ n. n < 65536) }
{
    if let Some(code) = code {
        let _code = code;
    }
}

fn moment_fits(moment: Moment)
    ensures { moment < MOMENT_END }
{
    let _micros = moment.micros();
}

fn id_fits(id: AuditId)
    ensures boot { id.boot < 2 ^ 64 }
    ensures bay { id.bay < 2 ^ 16 }
    ensures number { id.number < 2 ^ 48 }
{
    let _id = (id.boot, id.bay, id.number);
}

pub fn event_fits(event: &Event)
    ensures { plain.Fits event.now }
{
    id_fits(event.id);
    text_fits(&event.target);
    text_fits(&event.verb);
    user_fits(&event.user);
    impersonated_fits(&event.impersonated);
    peer_fits(event.peer);
    text_fits(&event.agent);
    object_fits(&event.object_ref);
    code_fits(event.code);
    moment_fits(event.received);
    moment_fits(event.at);
}
