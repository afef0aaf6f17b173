// Laws about the entries of a history.
ghost use Rattle.std.specs.Prelude.{◌≡◌, List, All, length};
ghost use Rattle.route_history.specs.declared.entry.Entry.{Entry};
ghost use Rattle.shared_routes.specs.Makers.{AreMade, AreNumbered, IsWithin, own_count};
ghost use Rattle.shared_routes.specs.Shared.{Shared};

/// Where the bays, numbered from 0, have as many own changes together as there are entries, each entry was made by one of them, and
/// each bay's own changes are exactly those of its entries.
pub fn counted_changes_are_made()
    ensures { (entries : List Entry) (all : List Shared) → AreNumbered 0 all → All (IsWithin entries) all
        → own_count all ≡ length entries → AreMade entries all }
{}
