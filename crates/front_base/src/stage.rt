ghost use Rattle.std.specs.Prelude.{◌≡◌};
ghost use Rattle.front_base.specs.Stage.{stage_name, stage_of};

/// When in a request's life an audit event is made (`Stage` of `audit.k8s.io/v1`).
#[derive(Clone, Copy, Debug, PartialEq, Eq, PartialOrd, Ord, Hash)]
pub enum Stage {
    /// The request has been read.
    RequestReceived,
    /// The head of a long-running request's reply is known.
    ResponseStarted,
    /// The reply is complete.
    ResponseComplete,
    /// The server panicked. A policy may name it; no event here has it.
    Panic,
}

impl Stage {
    /// The name that policies and events spell.
    pub fn name(self) -> &'static str
        ensures { result.now ≡ stage_name self }
    {
        match self {
            Stage::RequestReceived => "RequestReceived",
            Stage::ResponseStarted => "ResponseStarted",
            Stage::ResponseComplete => "ResponseComplete",
            Stage::Panic => "Panic",
        }
    }

    /// The stage of that name, if one has it.
    #[tactic(auto, unfolding(crate::specs::Stage::stage_of))]
    pub fn of_name(name: &str) -> Option<Stage>
        ensures { result ≡ stage_of name.now }
    {
        match name {
            "RequestReceived" => Some(Stage::RequestReceived),
            "ResponseStarted" => Some(Stage::ResponseStarted),
            "ResponseComplete" => Some(Stage::ResponseComplete),
            "Panic" => Some(Stage::Panic),
            _ => None,
        }
    }
}
