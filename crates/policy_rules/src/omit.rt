ghost use Rattle.std.specs.Prelude.{◌≡◌};
ghost use Rattle.policy_rules.specs.Policy as spec;

/// The stages at which no event is made. No event here has the stage `Panic`, so it isn't kept.
#[derive(Clone, Copy, Debug, PartialEq, Eq)]
pub struct Omit {
    pub received: bool,
    pub started: bool,
    pub complete: bool,
}

impl Omit {
    pub const NOTHING: Omit = Omit {
        received: false,
        started: false,
        complete: false,
    };

    /// The stages that one of both leaves out.
    pub fn union(self, other: Omit) -> Omit
        ensures { result ≡ spec.union self other }
    {
        Omit {
            received: self.received || other.received,
            started: self.started || other.started,
            complete: self.complete || other.complete,
        }
    }
}
