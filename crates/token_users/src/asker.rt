use front_base::User;

/// Who asks.
#[derive(Debug, Drop)]
pub enum Who {
    /// The user of a token, with the groups that the file gives.
    Known(User),
    /// Nobody says who they are.
    Anonymous,
    /// The token is nobody's.
    BadToken,
}
