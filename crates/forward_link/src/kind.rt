// What a head of a reply is to its reader.
ghost use Rattle.std.specs.Prelude.{◌≡◌};
ghost use Rattle.forward_link.specs.Kinds as spec;

use body_frames::Frame;
use http_head::{Framing, ReplyHead, framing};

/// The most interim heads that may come before a final one.
pub const MOST_INTERIM: usize = 8;

/// The most bytes of a body that is read whole before any of it is sent on.
pub const MOST_WHOLE_BYTES: u64 = 4194304;

// What a head of a reply is to its reader.
#[derive(Clone, Copy)]
pub enum HeadKind {
    // Another head follows (RFC 9110, section 15.2).
    Interim,
    // It is none that is taken.
    Refused,
    // A body in that frame follows.
    Final(Frame),
}

fn frame_by(framing: Framing) -> Option<Frame>
    ensures { result ≡ spec.frame_by framing }
{
    match framing {
        Framing::NoBody => Some(Frame::Close),
        Framing::Length(size) => Some(Frame::Length(size)),
        Framing::Chunked => Some(Frame::Chunked),
        Framing::Bad => None,
    }
}

fn final_kind(bare: bool, frame: Option<Frame>) -> HeadKind
    ensures { result ≡ spec.final_kind bare frame }
{
    match frame {
        None => HeadKind::Refused,
        Some(_) if bare => HeadKind::Final(Frame::NoBody),
        Some(frame) => HeadKind::Final(frame),
    }
}

fn is_bare(is_head: bool, status: u16) -> bool
    ensures { result ≡ spec.is_bare is_head status }
{
    is_head || status == 204 || status == 304
}

// By its status, and by the framing that its headers say. Replies to HEAD have no body (RFC 9110, section 9.3.2).
pub fn kind_of(is_head: bool, head: &ReplyHead) -> HeadKind
    ensures { result ≡ spec.kind_of is_head head.now }
{
    if head.status < 100 || head.status == 101 || 999 < head.status {
        HeadKind::Refused
    } else if head.status < 200 {
        HeadKind::Interim
    } else {
        final_kind(
            is_bare(is_head, head.status),
            frame_by(framing(&head.headers, head.minor)),
        )
    }
}

// How many bytes a body has that is read whole.
pub fn whole_size(streamed: bool, frame: Frame) -> Option<usize>
    ensures { result ≡ spec.whole_size streamed frame }
{
    match frame {
        Frame::NoBody if !streamed => Some(0),
        Frame::Length(size) if !streamed && size <= MOST_WHOLE_BYTES => Some(size as usize),
        _ => None,
    }
}

/// The frame of a whole reply of that status whose body has so many bytes, as `client_head` wants it. Replies to HEAD, 204
/// and 304 have no body.
pub fn whole_frame(is_head: bool, status: u16, size: u64) -> Frame
    ensures { result ≡ spec.whole_frame is_head status size }
{
    if is_bare(is_head, status) {
        Frame::NoBody
    } else {
        Frame::Length(size)
    }
}
