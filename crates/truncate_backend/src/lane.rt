ghost use Rattle.std.specs.Prelude.{◌≡◌, List, ℕ, Bool, Option};
ghost use Rattle.std.specs.Option.{ForSome};
ghost use Rattle.truncate_backend.specs.Lanes.{Offered, LaneTells};

use front_base::Line;

/// What a lane answers. Full and Failed hand the line back.
#[derive(Debug, Drop)]
pub enum Offer {
    /// The line is queued, or was written.
    Taken,
    /// The queue has no room.
    Full(Line),
    /// The lane's own sink didn't write it.
    Failed(Line),
}

/// Where a bay offers its lines.
pub trait Lane {
    /// The lines that were accepted, those that were offered to its sink or queue, and how often it was Full or Failed.
    ghost tells: { Self → LaneTells };

    /// The bay whose lines it takes, where it takes those of one bay alone.
    ghost bay: { Self → Option ℕ };

    /// Which ring, queue or sink it belongs to, and what that never changes.
    ghost home: { Self → List ℕ };

    /// Whether its lines are queued for a drainer. Such a lane never answers Failed, and no other answers Full.
    ghost queued: { Self → Bool };

    fn offer(&mut self, line: Line) -> Offer
        requires { ForSome (bay self.old) (λ b. line.bay ≡ b) }
        ensures fixed { (bay self.new ≡ bay self.old)
            × (home self.new ≡ home self.old)
            × (queued self.new ≡ queued self.old) }
        ensures offered { Offered (tells self.old) line (queued self.old) result (tells self.new) };
}
