use front_base::{Info, User};

/// What a request asks for, and who asks.
#[derive(Debug, Drop)]
pub struct Attributes {
    pub info: Info,
    /// The user that authenticated.
    pub user: User,
    /// The user that the request acts as, where it acts as another.
    pub acting: Option<User>,
}
