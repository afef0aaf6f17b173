ghost use Rattle.event_members.specs.TextMembers as spec;
ghost use Rattle.event_members.specs.TextMembers.{Gives};

use crate::fault::EventFault;
use crate::json_string::{after, after_if};
use crate::text_members::{object_end, text_if, texts_if};
use front_base::User;
use std::alloc::Global;

#[tactic(auto, unfolding(crate::specs::TextMembers::user_at))]
pub fn user_of(alloc: Global, bytes: &[u8]) -> Result<(User, &[u8]), EventFault>
    ensures { Gives (λ x. (x.0, x.1.now)) result (spec.user_at bytes.now) }
{
    let inside = after(bytes, b"{")?;
    let (name, rest) = text_if(alloc, inside, b"\"username\":")?;
    let (uid, rest) = text_if(alloc, rest, b"\"uid\":")?;
    let (groups, rest) = texts_if(alloc, rest, b"\"groups\":")?;
    let rest = object_end(rest)?;
    Ok((User { name, uid, groups }, rest))
}

#[tactic(auto, unfolding(crate::specs::TextMembers::impersonated_at))]
pub fn impersonated_of(alloc: Global, bytes: &[u8]) -> Result<(Option<User>, &[u8]), EventFault>
    ensures { Gives (λ x. (x.0, x.1.now)) result (spec.impersonated_at bytes.now) }
{
    match after_if(bytes, b"\"impersonatedUser\":") {
        Some(value) => {
            let (user, rest) = user_of(alloc, value)?;
            Ok((Some(user), rest))
        }
        None => Ok((None, bytes)),
    }
}
