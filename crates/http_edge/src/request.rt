// A request, and why no more come.
use front_base::Bytes;
use http_head::Head;

/// A request: its head, and its body with the frame taken off.
#[derive(Debug, Drop)]
pub struct Request {
    pub head: Head,
    pub body: Bytes,
}

/// Why no more requests come.
#[derive(Clone, Copy, Debug, PartialEq, Eq)]
pub enum End {
    /// The input ended after the last request, but for CR and LF.
    Ended,
    /// The last request was the last of its connection.
    Asked,
    /// What comes next is no head.
    BadHead,
    HeadTooLarge,
    /// The head doesn't say how its body is framed, or the body's chunks break.
    BadFraming,
    BodyTooLarge,
    /// The input ended within a request.
    CutShort,
}

/// Why a call gave no request.
#[derive(Clone, Copy, Debug, PartialEq, Eq)]
pub enum Stop {
    /// There is none, and there will be none. It is never `Asked`.
    Refused(End),
    /// A read failed.
    ReadFault,
    NoMemory,
}
