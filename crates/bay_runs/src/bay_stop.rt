/// Why a bay stopped.
#[derive(Clone, Copy, Debug, PartialEq, Eq)]
pub enum BayStop {
    /// Its door gives no more connections.
    Closed,
    /// Its door failed to give a connection.
    DoorFault,
    /// One more request stood next on a connection, and the bay has no number for it.
    NumbersSpent,
}
