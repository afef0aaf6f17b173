ghost use Rattle.std.specs.Prelude.{◌≡◌};

use front_base::{Text, Texts};
use std::marker::Model;

/// A group of APIs.
#[derive(Debug, Drop)]
pub struct Group {
    pub name: Text,
    /// The one to prefer first.
    pub versions: Texts,
}

/// Groups in order, which contracts see as a list.
#[derive(Debug, Drop)]
pub struct Groups(Vec<Group>);

impl Model for Groups {
    ghost use Rattle.std.specs.Prelude.{List};
    ghost use Rattle.discovery_merge.specs.declared.groups.Group.{Group};

    ghost Value = { List Group };

    ghost view = { λ g. g.0.items };
}

impl Groups {
    pub fn new(groups: Vec<Group>) -> Groups
        ensures { result ≡ groups.items }
    {
        Groups(groups)
    }

    pub fn as_slice(&self) -> &[Group]
        ensures { result.now ≡ self.now }
    {
        self.0.as_slice()
    }
}
