/// What a request wants.
#[derive(Clone, Copy, PartialEq, Eq)]
pub enum Wants {
    /// What is answered here.
    Health,
    Pod,
    /// A pod's changes, which runs long.
    Watch,
    /// What isn't recorded.
    Secret,
    /// That the API's row goes.
    Delete,
    /// That the API's row comes.
    Create,
}
