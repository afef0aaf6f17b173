use front_base::Bytes;

/// What is written of an event where a line may have at most so many bytes.
#[derive(Debug, Drop)]
pub enum Fit {
    /// The event's line.
    Whole(Bytes),
    /// The line of the event without its objects, which says that they were taken out.
    Stripped(Bytes),
    /// Nothing: even the stripped line has more bytes, so many.
    TooLarge { size: u64 },
}
