use crate::head_end::{Place, line_len, place_after};
use crate::head_line::HeadLine;
use crate::head_notes::HeadNotes;
use crate::limits::TcpLimits;
use crate::pace::Pace;
use body_frames::{Decoder, Frame};

/// Where the bytes of a client stand in its requests, and how slowly they come. Requests end here where the one that reads
/// them ends them (RFC 9112, section 6), but for those that it refuses, after which no more are read.
#[derive(Drop)]
pub(crate) struct RequestScan {
    place: Place,
    line: HeadLine,
    head: HeadNotes,
    body: Decoder,
    pace: Pace,
    // How many heads and bodies ended.
    ends: u64,
}

// The decoder of a body that doesn't end.
fn endless() -> Decoder {
    Decoder::new(Frame::Close, u64::MAX)
}

impl RequestScan {
    pub(crate) fn new() -> RequestScan {
        RequestScan {
            place: Place::Start,
            line: HeadLine::new(),
            head: HeadNotes::new(),
            body: endless(),
            pace: Pace::new(),
            ends: 0,
        }
    }

    /// Whether no byte of a request came after the last one that is whole, but for empty lines.
    pub(crate) fn is_between(&self) -> bool {
        match self.place {
            Place::Start => true,
            _ => false,
        }
    }

    fn is_in_body(&self) -> bool {
        match self.place {
            Place::Body => true,
            _ => false,
        }
    }

    /// Whether the client waits for the interim reply, and nothing of its body came.
    pub(crate) fn awaits_continue(&self) -> bool {
        self.is_in_body() && self.head.expects()
    }

    /// The client doesn't wait for it any more.
    pub(crate) fn continued(&mut self) {
        self.head.expects_no_more();
    }

    // A request is whole.
    fn end_request(&mut self) {
        self.place = Place::Start;
        self.head = HeadNotes::new();
        self.pace = Pace::new();
        self.ends = self.ends.saturating_add(1);
    }

    // A head is whole.
    fn end_head(&mut self) {
        self.body = Decoder::new(self.head.frame(), u64::MAX);
        self.pace = Pace::new();
        self.ends = self.ends.saturating_add(1);
        if self.body.is_done() {
            self.end_request();
        }
    }

    // Bytes of a head, or before one, and how many of them were taken: those of one line, or one.
    fn take_head(&mut self, bytes: &[u8]) -> usize {
        let Some(byte) = bytes.first() else {
            return 0;
        };
        self.place = place_after(self.place, *byte);
        match self.place {
            Place::InLine => {
                let len = line_len(bytes);
                self.line.put(&bytes[..len]);
                return len;
            }
            Place::LineEnd => {
                self.head.note(&self.line);
                self.line = HeadLine::new();
            }
            Place::Body => self.end_head(),
            Place::Start | Place::CarriageReturn => {}
        }
        1
    }

    // Bytes of a body, and how many of them are its own.
    fn take_body(&mut self, bytes: &[u8]) -> usize {
        self.continued();
        match self.body.feed(bytes) {
            Ok(fed) => {
                if fed.done {
                    self.end_request();
                }
                fed.taken
            }
            Err(_) => {
                self.body = endless();
                bytes.len()
            }
        }
    }

    // Takes the first bytes, and answers how many these are.
    fn take_some(&mut self, bytes: &[u8]) -> usize {
        if self.is_in_body() {
            self.take_body(bytes)
        } else {
            self.take_head(bytes)
        }
    }

    fn take(&mut self, bytes: &[u8]) {
        let mut rest = bytes;
        // Each turn takes one byte at least.
        for _ in 0..bytes.len() {
            let taken = self.take_some(rest);
            if rest.len() <= taken {
                return;
            }
            rest = &rest[taken..];
        }
    }

    /// A read waited so many milliseconds for these bytes. Whether the client is too slow with a head, or with a body, and
    /// they aren't the last ones of it.
    pub(crate) fn is_late(&mut self, bytes: &[u8], waited: u64, limits: &TcpLimits) -> bool {
        let in_body = self.is_in_body();
        let late = self.pace.is_late(
            in_body,
            bytes.len(),
            waited,
            limits.read_header_timeout,
            limits,
        );
        let ends = self.ends;
        self.take(bytes);
        late && self.ends == ends
    }
}
