/// Why no more lines of an input are shipped.
#[derive(Clone, Copy, Debug, PartialEq, Eq)]
pub enum ShipEnd {
    /// The input ends there.
    Done,
    /// The next line isn't a JSON text.
    NotJson,
    /// The next line has too many bytes.
    TooLong,
    /// The input ends within the next line.
    Cut,
    /// The input could not be read.
    ReadFault,
    /// There is more, and 2^48 lines were read.
    NumbersSpent,
    NoMemory,
}
