// The members that say when.
ghost use Rattle.std.specs.Prelude.{◌≡◌};
ghost use Rattle.event_members.specs.TextMembers.{Gives};
ghost use Rattle.stamp_text.specs.Dates.{if_moment};
ghost use Rattle.audit_reader.specs.Moments as spec;

use event_members::{EventFault, after, skip_comma, string_of};
use front_base::Moment;
use stamp_text::moment_of;
use std::alloc::Global;

// The microseconds of a moment's member.
#[tactic(auto, unfolding(crate::specs::Moments::micros_at))]
pub fn micros_of_member<'b>(
    alloc: Global,
    bytes: &'b [u8],
    label: &[u8],
) -> Result<(u64, &'b [u8]), EventFault>
    ensures { Gives (λ x. (x.0, x.1.now)) result (spec.micros_at label.now bytes.now) }
{
    let (text, rest) = string_of(alloc, after(bytes, label)?)?;
    match moment_of(text.as_slice()) {
        Some(moment) => Ok((moment.micros(), skip_comma(rest))),
        None => Err(EventFault::NotAnEvent),
    }
}

pub fn if_moment(micros: u64) -> Option<Moment>
    ensures { result ≡ if_moment micros }
{
    Moment::new(micros)
}
