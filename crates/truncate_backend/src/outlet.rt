ghost use Rattle.std.specs.Prelude.{◌≡◌, List, ℕ};
ghost use Rattle.truncate_backend.specs.Outlets.{Popped, OutletTells};

use front_base::Line;

/// Where queued lines come out.
pub trait Outlet {
    /// The lines that were taken, how often there was none, and the lines that are left.
    ghost tells: { Self → OutletTells };

    /// Which ring or queue it belongs to, as a lane's `home`.
    ghost home: { Self → List ℕ };

    /// Takes the next line, where there is one.
    fn pop(&mut self) -> Option<Line>
        ensures fixed { home self.new ≡ home self.old }
        ensures popped { Popped (tells self.old) result (tells self.new) };
}
