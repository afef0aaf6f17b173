// Bodies, which are compact JSON without half a surrogate pair.
ghost use Rattle.std.specs.Prelude.{◌≡◌, ◌↔◌, true, IfOk};
ghost use Rattle.audit_reader.specs.Bodies as spec;
ghost use Rattle.audit_reader.specs.Plain as plain;
ghost use Rattle.event_members.specs.TextMembers.{Gives};

use event_members::{EventFault, after_if, skip_comma};
use front_base::Bytes;
use json_prune::{keep, kept_is_json, mended_once};
use json_span::{JsonError, one_value, value_len};
use std::alloc::Global;

// A body that may be left out.
#[tactic(auto, unfolding(crate::specs::Bodies::body_if_at))]
pub fn body_if<'b>(
    alloc: Global,
    bytes: &'b [u8],
    label: &[u8],
) -> Result<(Option<Bytes>, &'b [u8]), EventFault>
    ensures { Gives (λ x. (x.0, x.1.now)) result (spec.body_if_at label.now bytes.now) }
{
    match after_if(bytes, label) {
        Some(value) => {
            let (body, rest) = value.split_at(value_len(value));
            Ok((
                Some(Bytes::new(Vec::from_slice(alloc, body)?)),
                skip_comma(rest),
            ))
        }
        None => Ok((None, bytes)),
    }
}

// Whether the bytes are what would be kept of them.
fn is_kept_json(alloc: Global, body: &[u8]) -> Result<bool, EventFault>
    ensures { plain.Tells result (plain.IsKeptJson body.now) }
{
    one_value();
    kept_is_json();
    mended_once();
    match keep(alloc, body, false) {
        Ok(kept) => Ok(kept.as_slice() == body),
        Err(JsonError::NotJson(_)) => Ok(false),
        Err(JsonError::NoMemory) => Err(EventFault::NoMemory),
    }
}

pub fn is_plain_body(alloc: Global, body: &Option<Bytes>) -> Result<bool, EventFault>
    ensures { plain.Tells result (plain.IsBody body.now) }
{
    match body {
        Some(body) => is_kept_json(alloc, body.as_slice()),
        None => Ok(true),
    }
}
