use http_edge::End;

/// Why a connection ended.
#[derive(Clone, Copy, Debug, PartialEq, Eq)]
pub enum ConnEnd {
    /// No more requests come. What is no request was answered with its refusal, where one is due.
    Stopped(End),
    /// A read failed.
    ReadFault,
    /// A reply could not be written whole.
    WriteFault,
    /// A reply that was handed on as it came was cut: its backend's bytes ended before its body did or broke its chunks, or
    /// its link failed.
    BackendCut,
    /// The body of a reply that was handed on as it came exceeds `stream_relay::MOST_STREAMED_BYTES`.
    StreamSpent,
    /// One more request stands next, and the bay has no number for it.
    NumbersSpent,
    /// Memory ran out.
    NoMemory,
}
