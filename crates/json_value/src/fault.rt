/// Why bytes give no value.
#[derive(Clone, Copy, Debug, PartialEq, Eq)]
pub enum ValueError {
    /// The bytes are no JSON text in UTF-8, or one that is nested more than 127 deep, or that has a number past the range
    /// of a double or an escape of half a surrogate pair.
    NotJson,
    /// Memory ran out.
    NoMemory,
}
