/// Whether a stream begins with the block of a head: the bytes up to its first empty line.
#[derive(Clone, Copy, Debug, PartialEq, Eq)]
pub enum BlockAnswer {
    /// A whole block, which has that many bytes, with the empty lines before its first line.
    Whole(usize),
    /// The block hasn't ended yet.
    More,
    /// The block is longer than a head may be, or it has more lines.
    TooLarge,
}

/// What a stream begins with, as far as a head goes.
#[derive(Debug, Drop)]
pub enum HeadAnswer<H> {
    /// A whole head. Its block has that many bytes, with the empty lines before its first line.
    Whole { head: H, length: usize },
    /// The block hasn't ended yet.
    More,
    /// The block is no head.
    BadHead,
    /// The block is longer than a head may be, or it has more lines.
    TooLarge,
}

/// What a stream begins with, as far as the status of a reply goes.
#[derive(Clone, Copy, Debug, PartialEq, Eq)]
pub enum StatusAnswer {
    /// A whole head with this status, 0 to 999. Its block has that many bytes, with the empty lines before its first line.
    Whole { status: u16, length: usize },
    /// The block hasn't ended yet.
    More,
    /// The block is no head.
    BadHead,
    /// The block is longer than a head may be, or it has more lines.
    TooLarge,
}
