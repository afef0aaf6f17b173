ghost use Rattle.std.specs.Prelude.{◌≡◌, ℕ, IfErr};

use front_base::Line;

/// The end of a queue that a thread pushes to.
pub trait Pusher {
    /// The bay whose lines it takes.
    ghost bay: { Self → ℕ };

    fn number(&self) -> u16
        ensures { result ≡ bay self.now };

    /// Hands the line back where the queue doesn't take it.
    fn push(&mut self, line: Line) -> Result<(), Line>
        requires { line.bay ≡ bay self.old }
        ensures same { bay self.new ≡ bay self.old }
        ensures back { IfErr result (λ l. l ≡ line) };
}

/// The end of a queue that a thread pops from.
pub trait Popper {
    fn pop(&mut self) -> Option<Line>;
}
