ghost use Rattle.event_members.specs.TextMembers as spec;
ghost use Rattle.event_members.specs.TextMembers.{Gives};

use crate::fault::EventFault;
use crate::json_string::{after, after_if};
use crate::text_members::{object_end, three_texts};
use stage_event::ObjectRef;
use std::alloc::Global;

#[tactic(auto, unfolding(crate::specs::TextMembers::reference_at))]
fn reference_of(alloc: Global, bytes: &[u8]) -> Result<(ObjectRef, &[u8]), EventFault>
    ensures { Gives (λ x. (x.0, x.1.now)) result (spec.reference_at bytes.now) }
{
    let inside = after(bytes, b"{")?;
    let (place, rest) = three_texts(
        alloc,
        inside,
        b"\"resource\":",
        b"\"namespace\":",
        b"\"name\":",
    )?;
    let (kind, rest) = three_texts(
        alloc,
        rest,
        b"\"apiGroup\":",
        b"\"apiVersion\":",
        b"\"subresource\":",
    )?;
    let rest = object_end(rest)?;
    let (resource, namespace, name) = place;
    let (group, version, subresource) = kind;
    let object = ObjectRef {
        resource,
        namespace,
        name,
        group,
        version,
        subresource,
    };
    Ok((object, rest))
}

#[tactic(auto, unfolding(crate::specs::TextMembers::object_ref_at))]
pub fn object_ref_of(alloc: Global, bytes: &[u8]) -> Result<(Option<ObjectRef>, &[u8]), EventFault>
    ensures { Gives (λ x. (x.0, x.1.now)) result (spec.object_ref_at bytes.now) }
{
    match after_if(bytes, b"\"objectRef\":") {
        Some(value) => {
            let (object, rest) = reference_of(alloc, value)?;
            Ok((Some(object), rest))
        }
        None => Ok((None, bytes)),
    }
}
