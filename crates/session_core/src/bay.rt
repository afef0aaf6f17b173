use event_offers::Lanes;

/// What one connection thread serves with.
#[derive(Drop)]
pub struct Bay<R, D, A, B, K, Y> {
    /// The word that audit IDs of this run begin with.
    pub boot: u64,
    /// How many requests it served. It is at most `MOST_REQUESTS`.
    pub number: u64,
    /// The table of APIs.
    pub routes: R,
    /// Where links to backends come from.
    pub dial: D,
    /// Its own number, and where its audit lines go.
    pub lanes: Lanes<A, B>,
    pub clock: K,
    pub diary: Y,
}
