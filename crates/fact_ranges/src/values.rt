// Single values, which are in the range of their types once they are read.
ghost use Rattle.std.specs.Prelude.{◌<◌, ◌^◌, IfSome};
ghost use Rattle.std.specs.List.{AllByRecursion};
ghost use Rattle.event_members.specs.Ranges as ranges;
ghost use Rattle.event_members.specs.Ranges.{IsUtf8};
ghost use Rattle.front_base.specs.declared.moment.TheConstants.{MOMENT_END};

use front_base::{AuditId, Moment, Text, Texts, User};

pub fn text_is(text: &Text)
    ensures { IsUtf8 text.now }
{
    let _text = text.as_str();
}

fn groups_are(groups: &Texts)
    ensures { AllByRecursion IsUtf8 groups.now }
{
    for group in groups.as_slice() {
        text_is(group);
    }
}

pub fn user_is(user: &User)
    ensures { ranges.IsUser user.now }
{
    text_is(&user.name);
    text_is(&user.uid);
    groups_are(&user.groups);
}

pub fn acting_is(user: &Option<User>)
    ensures { IfSome user.now ranges.IsUser }
{
    if let Some(user) = user {
        user_is(user);
    }
}

pub fn peer_is(peer: [u8; 4])
    ensures { ranges.IsPeer peer }
{
    let [_, _, _, _] = peer;
}

pub fn status_is(status: u16)
    ensures { status < 65536 }
{}

pub fn moment_is(moment: Moment)
    ensures { moment < MOMENT_END }
{
    let _micros = moment.micros();
}

pub fn id_is(id: AuditId)
    ensures boot { id.boot < 2 ^ 64 }
    ensures bay { id.bay < 2 ^ 16 }
    ensures number { id.number < 2 ^ 48 }
{
    let _id = (id.boot, id.bay, id.number);
}
