ghost use Rattle.std.specs.Prelude.{◌≡◌, ◌≤◌, ◌+◌, ◌-◌, ◌^◌, min, List, [], ◌∷◌, ℕ, Option};
ghost use Rattle.front_ports.specs.Clocks.{LosesAtEnd};
ghost use Rattle.front_ports.specs.Told.{Grows};

use front_base::Moment;

/// Tells the time, which never goes back.
pub trait Clock {
    /// The moment that it answered last, 0 before the first.
    ghost last: { Self → ℕ };

    /// The moments that it has answered, in order, where it tells them.
    ghost given: { Self → Option (List ℕ) };

    /// How often it has rested: at 2^64 - 1 the count stands.
    ghost rests: { Self → ℕ };

    fn now(&mut self) -> Moment
        ensures later { last self.old ≤ result }
        ensures last { last self.new ≡ result }
        ensures given { Grows (given self.old) (given self.new) (result ∷ []) }
        ensures told { LosesAtEnd (given self.old) (given self.new) }
        ensures rests { rests self.new ≡ rests self.old };

    /// May wait a little.
    fn rest(&mut self)
        ensures last { last self.new ≡ last self.old }
        ensures given { given self.new ≡ given self.old }
        ensures rests { rests self.new ≡ min (rests self.old + 1) (2 ^ 64 - 1) };
}
