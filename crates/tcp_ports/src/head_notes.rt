// What the lines of a request's head say of its body.
use crate::head_line::{CONTENT_LENGTH, EXPECT, HeadLine, TRANSFER_ENCODING};
use body_frames::Frame;
use front_base::number_of;

/// What the lines so far said. What is refused with its head counts as a body without an end.
#[derive(Clone, Copy, Drop)]
pub(crate) struct HeadNotes {
    // Whether the request line has come.
    begun: bool,
    is_1_1: bool,
    frame: Frame,
    expects: bool,
}

fn length_frame(value: &[u8]) -> Frame {
    match number_of(value) {
        Some(length) => Frame::Length(length),
        None => Frame::Close,
    }
}

impl HeadNotes {
    pub(crate) fn new() -> HeadNotes {
        HeadNotes {
            begun: false,
            is_1_1: false,
            frame: Frame::NoBody,
            expects: false,
        }
    }

    // Two headers that frame the body are refused.
    fn frame_by(&mut self, frame: Frame) {
        self.frame = match self.frame {
            Frame::NoBody => frame,
            _ => Frame::Close,
        };
    }

    /// The next line of the head.
    pub(crate) fn note(&mut self, line: &HeadLine) {
        if !self.begun {
            self.begun = true;
            self.is_1_1 = line.ends_in_one();
        } else if let Some(value) = line.value_of(CONTENT_LENGTH) {
            self.frame_by(length_frame(value));
        } else if let Some(value) = line.value_of(TRANSFER_ENCODING) {
            let chunked = self.is_1_1 && value.eq_ignore_ascii_case(b"chunked");
            self.frame_by(if chunked {
                Frame::Chunked
            } else {
                Frame::Close
            });
        } else if let Some(value) = line.value_of(EXPECT) {
            self.expects |= self.is_1_1 && value.eq_ignore_ascii_case(b"100-continue");
        }
    }

    /// How the body is framed.
    pub(crate) fn frame(&self) -> Frame {
        self.frame
    }

    /// Whether the client waits for the interim reply before it sends its body (RFC 9110, section 10.1.1).
    pub(crate) fn expects(&self) -> bool {
        match self.frame {
            Frame::Length(_) | Frame::Chunked => self.expects,
            Frame::NoBody | Frame::Close => false,
        }
    }

    /// The client doesn't wait for it, or no longer.
    pub(crate) fn expects_no_more(&mut self) {
        self.expects = false;
    }
}
