/// Why a try didn't write its lines.
#[derive(Clone, Copy, Debug, PartialEq, Eq)]
pub enum SinkFault {
    /// A write, a read or a dial failed, or there was no room for a note of the try.
    Port,
    /// The peer answered with this status, which isn't one of 200 to 299.
    Refused { code: u16 },
    /// The peer's answer isn't HTTP.
    BadAnswer,
}

/// How a try ended: it wrote its lines, or the fault.
#[derive(Clone, Copy, Debug, PartialEq, Eq)]
pub enum TryAnswer {
    Done,
    Port,
    Refused(u16),
    BadAnswer,
}

/// What is noted of a try.
#[derive(Clone, Copy, Debug, PartialEq, Eq)]
pub struct TryNote {
    /// How many lines it had.
    pub lines: u32,
    /// How many bytes of its text were written.
    pub sent: u64,
    pub answer: TryAnswer,
}
