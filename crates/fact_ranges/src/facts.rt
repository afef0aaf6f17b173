// The facts of an exchange.
ghost use Rattle.event_members.specs.Ranges.{IsReference, IsUtf8};
ghost use Rattle.fact_ranges.specs.InRange.{AreInRange};
ghost use Rattle.stage_event.specs.Events.{reference};

use crate::values::{acting_is, id_is, moment_is, peer_is, status_is, text_is, user_is};
use front_base::Info;
use stage_event::Facts;

// The object that a request names.
fn named_is(info: &Info)
    ensures { IsReference (reference info.now) }
{
    text_is(&info.resource);
    text_is(&info.namespace);
    text_is(&info.name);
    text_is(&info.group);
    text_is(&info.version);
    text_is(&info.subresource);
}

/// All that events show of an exchange, but for bodies, is in the range of its types.
pub fn facts_are_in_range(facts: &Facts)
    ensures { AreInRange facts.now }
{
    id_is(facts.id);
    text_is(&facts.target);
    text_is(&facts.info.verb);
    named_is(&facts.info);
    user_is(&facts.user);
    acting_is(&facts.acting);
    peer_is(facts.peer);
    text_is(&facts.agent);
    status_is(facts.status);
    moment_is(facts.received);
    moment_is(facts.started);
    moment_is(facts.complete);
}
