// What is shown of a body.
ghost use Rattle.std.specs.Prelude.{◌≡◌};
ghost use Rattle.stage_event.specs.Due as spec;

/// What events of a request show of a body.
#[derive(Clone, Copy, Debug, PartialEq, Eq)]
pub enum Show {
    /// No event shows it, and nobody has to look at it.
    Nothing,
    Whole,
    /// All but managed fields (Kubernetes, `audit.k8s.io/v1`, `omitManagedFields`).
    Pruned,
}

impl Show {
    /// By whether the body is shown, and whether managed fields are omitted.
    pub fn of(due: bool, omit: bool) -> Show
        ensures { result ≡ spec.shown_as due omit }
    {
        match (due, omit) {
            (false, _) => Show::Nothing,
            (true, false) => Show::Whole,
            (true, true) => Show::Pruned,
        }
    }

    /// Whether somebody has to look at the body.
    pub fn is_due(self) -> bool
        ensures { result ≡ spec.is_due self }
    {
        match self {
            Show::Nothing => false,
            Show::Whole | Show::Pruned => true,
        }
    }
}
