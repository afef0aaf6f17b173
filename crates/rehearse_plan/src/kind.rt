ghost use Rattle.std.specs.Prelude.{◌≡◌};
ghost use Rattle.rehearse_plan.specs.Kinds as spec;

use front_base::{Level, Stage};

/// What a request asks for.
#[derive(Clone, Copy, Debug, PartialEq, Eq)]
pub enum Kind {
    /// The pods of a namespace, one of ten.
    Pods,
    /// To create an object of an aggregated API.
    Create,
    /// Whether the server is healthy.
    Health,
    /// The groups that are served.
    Groups,
    /// A group that isn't served.
    Unknown,
    /// A secret, of which nothing is recorded.
    Secret,
    /// A watch on an aggregated API that is unavailable.
    Watch,
    /// To update an object of an aggregated API.
    Update,
}

impl Kind {
    /// That of the request of this number: the kinds follow one another, from the start on.
    pub fn at(start: u64, number: u32) -> Kind
        ensures { result ≡ spec.kind_at start number }
    {
        match (u128::from(start) + u128::from(number)) % 8 {
            0 => Kind::Pods,
            1 => Kind::Create,
            2 => Kind::Health,
            3 => Kind::Groups,
            4 => Kind::Unknown,
            5 => Kind::Secret,
            6 => Kind::Watch,
            _ => Kind::Update,
        }
    }

    pub fn method(self) -> &'static str
        ensures { result.now ≡ spec.method_of self }
    {
        match self {
            Kind::Create => "POST",
            Kind::Update => "PUT",
            _ => "GET",
        }
    }

    /// Whether its request has a body.
    pub fn has_body(self) -> bool
        ensures { result ≡ spec.has_body self }
    {
        match self {
            Kind::Create | Kind::Update => true,
            _ => false,
        }
    }

    /// Whether it is sent on, and not answered by the server itself.
    pub fn is_proxied(self) -> bool
        ensures { result ≡ spec.is_proxied self }
    {
        match self {
            Kind::Pods | Kind::Create | Kind::Secret | Kind::Update => true,
            _ => false,
        }
    }

    /// The status that it is answered.
    pub fn status(self) -> u16
        ensures { result ≡ spec.status_of self }
    {
        match self {
            Kind::Create => 201,
            Kind::Unknown => 404,
            Kind::Watch => 503,
            _ => 200,
        }
    }

    /// The level at which it is recorded.
    pub fn level(self) -> Level
        ensures { result ≡ spec.level_of self }
    {
        match self {
            Kind::Secret => Level::None,
            Kind::Create => Level::Request,
            Kind::Update => Level::RequestResponse,
            _ => Level::Metadata,
        }
    }

    /// The stages of its events, in order.
    pub fn stages(self) -> &'static [Stage]
        ensures { result.now ≡ spec.stages_of self }
    {
        match self {
            Kind::Secret => &[],
            Kind::Watch => &[
                Stage::RequestReceived,
                Stage::ResponseStarted,
                Stage::ResponseComplete,
            ],
            _ => &[Stage::RequestReceived, Stage::ResponseComplete],
        }
    }
}
