// What is told of group versions that were not listed.
ghost use Rattle.std.specs.Prelude.{List, Option, [], ◌∷◌};
ghost use Rattle.front_ports.specs.Told.{Adds};
ghost use Rattle.resources_command.specs.Notes.{Unlisted};

use resource_fetch::Listing;

/// Is told why group versions are stale or missing, one after another.
pub trait Notes {
    /// What it was told, in order, where it tells that.
    ghost noted: { Self → Option (List Unlisted) };

    /// The line of this group version was written, and it is stale or missing for that reason.
    fn note(&mut self, group_version: &str, why: &Listing)
        ensures { Adds (noted self.old) (noted self.new) (record { group_version = group_version.now; why = why.now } ∷ []) };
}
