/// What a step answered, in short.
#[derive(Clone, Copy, PartialEq, Eq)]
pub enum Said {
    Begun,
    Row,
    NoRow,
    Taken,
    Full,
    Failed,
    TooLarge,
    Noted,
    Made,
    Refused,
    /// A line by its bay and its number.
    Line(u16, u64),
    NoLine,
    Wrote(u32),
    Lost(u32),
    Idle,
}

/// The kind of an answer as a word.
pub fn word_of(own: Said) -> &'static str {
    match own {
        Said::Begun => "begun",
        Said::Row => "row",
        Said::NoRow => "no row",
        Said::Taken => "taken",
        Said::Full => "full",
        Said::Failed => "failed",
        Said::TooLarge => "too large",
        Said::Noted => "noted",
        Said::Made => "made",
        Said::Refused => "refused",
        Said::Line(_, _) => "line",
        Said::NoLine => "no line",
        Said::Wrote(_) => "wrote",
        Said::Lost(_) => "lost",
        Said::Idle => "idle",
    }
}
