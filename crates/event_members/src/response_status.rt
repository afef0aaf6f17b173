// The status code of the reply.
ghost use Rattle.event_members.specs.Values as spec;
ghost use Rattle.event_members.specs.TextMembers.{Gives};

use crate::decimal::below;
use crate::fault::EventFault;
use crate::json_string::{after, after_if};
use crate::text_members::object_end;

#[tactic(auto, unfolding(crate::specs::Values::status_at))]
fn status_of(bytes: &[u8]) -> Result<(u16, &[u8]), EventFault>
    ensures { Gives (λ x. (x.0, x.1.now)) result (spec.status_at bytes.now) }
{
    let value = after(bytes, b"{\"metadata\":{},\"code\":")?;
    let (code, rest) = below(value, 65536)?;
    let rest = object_end(rest)?;
    Ok((code as u16, rest))
}

#[tactic(auto, unfolding(crate::specs::Values::code_if_at))]
pub fn code_if(bytes: &[u8]) -> Result<(Option<u16>, &[u8]), EventFault>
    ensures { Gives (λ x. (x.0, x.1.now)) result (spec.code_if_at bytes.now) }
{
    match after_if(bytes, b"\"responseStatus\":") {
        Some(value) => {
            let (code, rest) = status_of(value)?;
            Ok((Some(code), rest))
        }
        None => Ok((None, bytes)),
    }
}
