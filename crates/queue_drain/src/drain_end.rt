/// What a drainer leaves once the queue is empty.
#[derive(Drop)]
pub struct DrainEnd<S, K> {
    pub sink: S,
    pub clock: K,
    /// How many lines were written. It stays at the last value of its type, as the others do.
    pub written: u64,
    /// How many lines stood in tries that failed.
    pub lost: u64,
    /// The first and the last moment that the drainer went by, in microseconds.
    pub began: u64,
    pub ended: u64,
    /// How often the lanes of the queue answered Full, all together.
    pub fulls: u64,
}
