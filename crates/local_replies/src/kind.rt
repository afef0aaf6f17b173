// The kinds of local paths.
ghost use Rattle.std.specs.Prelude.{◌≡◌, IfOk};
ghost use Rattle.local_replies.specs.Kind as spec;

use crate::local::Local;
use front_base::{NoMemory, Text, without_prefix};
use std::alloc::Global;

// A local path without the name in it.
#[derive(Clone, Copy, Debug, PartialEq, Eq)]
pub enum Kind {
    Health,
    GroupList,
    OneGroup,
    ResourceList,
    AllServices,
    OneService,
    Unserved,
}

// What a text has after a prefix, or nothing.
fn rest_of(alloc: Global, front: &str, text: &str) -> Result<Text, NoMemory>
    ensures { IfOk result (λ rest. rest ≡ spec.rest_of front.now text.now) }
{
    match without_prefix(text, front) {
        Some(rest) => Text::copy_of(alloc, rest),
        None => Text::copy_of(alloc, ""),
    }
}

impl Kind {
    // The local path of this kind that a text is.
    pub fn local_at(self, alloc: Global, text: &str) -> Result<Local, NoMemory>
        ensures { IfOk result (λ local. local ≡ spec.local_at self text.now) }
    {
        Ok(match self {
            Kind::Health => Local::Health,
            Kind::GroupList => Local::GroupList,
            Kind::OneGroup => Local::OneGroup(rest_of(alloc, "apis/", text)?),
            Kind::ResourceList => Local::ResourceList,
            Kind::AllServices => Local::AllServices,
            Kind::OneService => Local::OneService(rest_of(
                alloc,
                "apis/apiregistration.k8s.io/v1/apiservices/",
                text,
            )?),
            Kind::Unserved => Local::Unserved,
        })
    }
}
