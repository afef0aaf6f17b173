// The address of the peer, the one element of `sourceIPs`.
ghost use Rattle.event_members.specs.Values as spec;
ghost use Rattle.event_members.specs.TextMembers.{Gives};

use crate::decimal::below;
use crate::fault::EventFault;
use crate::json_string::after;
use crate::text_members::skip_comma;

fn byte_of(bytes: &[u8]) -> Result<(u8, &[u8]), EventFault>
    ensures { Gives (λ x. (x.0, x.1.now)) result (spec.below_at 256 bytes.now) }
{
    let (number, rest) = below(bytes, 256)?;
    Ok((number as u8, rest))
}

#[tactic(auto, unfolding(crate::specs::Values::dotted_at))]
fn dotted_of(bytes: &[u8]) -> Result<(u8, &[u8]), EventFault>
    ensures { Gives (λ x. (x.0, x.1.now)) result (spec.dotted_at bytes.now) }
{
    let (number, rest) = byte_of(bytes)?;
    Ok((number, after(rest, b".")?))
}

#[tactic(auto, unfolding(crate::specs::Values::peer_at))]
pub fn peer_of(bytes: &[u8]) -> Result<([u8; 4], &[u8]), EventFault>
    ensures { Gives (λ x. (x.0, x.1.now)) result (spec.peer_at bytes.now) }
{
    let value = after(bytes, b"\"sourceIPs\":[\"")?;
    let (a, rest) = dotted_of(value)?;
    let (b, rest) = dotted_of(rest)?;
    let (c, rest) = dotted_of(rest)?;
    let (d, rest) = byte_of(rest)?;
    let rest = after(rest, b"\"]")?;
    Ok(([a, b, c, d], skip_comma(rest)))
}
