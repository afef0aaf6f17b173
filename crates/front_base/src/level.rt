ghost use Rattle.std.specs.Prelude.{◌≡◌};
ghost use Rattle.front_base.specs.Level.{level_name, level_of};

/// How much of a request an audit event records (`Level` of `audit.k8s.io/v1`).
#[derive(Clone, Copy, Debug, PartialEq, Eq, PartialOrd, Ord, Hash)]
pub enum Level {
    /// Nothing: there is no event.
    None,
    /// Who asked for what, and how it ended, without any body.
    Metadata,
    /// The above, and the request's body.
    Request,
    /// The above, and the reply's body.
    RequestResponse,
}

impl Level {
    /// The name that policies and events spell.
    pub fn name(self) -> &'static str
        ensures { result.now ≡ level_name self }
    {
        match self {
            Level::None => "None",
            Level::Metadata => "Metadata",
            Level::Request => "Request",
            Level::RequestResponse => "RequestResponse",
        }
    }

    /// The level of that name, if one has it.
    #[tactic(auto, unfolding(crate::specs::Level::level_of))]
    pub fn of_name(name: &str) -> Option<Level>
        ensures { result ≡ level_of name.now }
    {
        match name {
            "None" => Some(Level::None),
            "Metadata" => Some(Level::Metadata),
            "Request" => Some(Level::Request),
            "RequestResponse" => Some(Level::RequestResponse),
            _ => None,
        }
    }
}
