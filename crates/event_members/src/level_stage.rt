// The level and the stage.
ghost use Rattle.event_members.specs.Values as spec;
ghost use Rattle.event_members.specs.TextMembers.{Gives};

use crate::fault::EventFault;
use crate::text_members::text_member;
use front_base::{Level, Stage};
use std::alloc::Global;

#[tactic(auto, unfolding(crate::specs::Values::level_at))]
pub fn level_of(alloc: Global, bytes: &[u8]) -> Result<(Level, &[u8]), EventFault>
    ensures { Gives (λ x. (x.0, x.1.now)) result (spec.level_at bytes.now) }
{
    let (name, rest) = text_member(alloc, bytes, b"\"level\":")?;
    match Level::of_name(name.as_str()) {
        Some(level) => Ok((level, rest)),
        None => Err(EventFault::NotAnEvent),
    }
}

#[tactic(auto, unfolding(crate::specs::Values::stage_at))]
pub fn stage_of(alloc: Global, bytes: &[u8]) -> Result<(Stage, &[u8]), EventFault>
    ensures { Gives (λ x. (x.0, x.1.now)) result (spec.stage_at bytes.now) }
{
    let (name, rest) = text_member(alloc, bytes, b"\"stage\":")?;
    match Stage::of_name(name.as_str()) {
        Some(stage) => Ok((stage, rest)),
        None => Err(EventFault::NotAnEvent),
    }
}
