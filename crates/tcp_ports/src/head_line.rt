// A line of a head as its bytes come, as far as it can say something of the body.
ghost use Rattle.std.specs.Prelude.{◌≤◌, length};

// The most bytes of such a line, without the blanks round its value: `Content-Length:` and 19 digits.
const MOST_BYTES: usize = 34;

pub(crate) const CONTENT_LENGTH: &[u8] = b"content-length";

pub(crate) const TRANSFER_ENCODING: &[u8] = b"transfer-encoding";

pub(crate) const EXPECT: &[u8] = b"expect";

#[derive(Clone, Copy, Drop)]
pub(crate) struct HeadLine {
    kept: [u8; MOST_BYTES],
    len: usize,
    // How many of the kept bytes come before the blanks at the end.
    end: usize,
    // Whether it is longer than any header that is asked for, or begins otherwise. Then no more bytes are kept.
    is_other: bool,
    // The last byte that is no blank.
    last: u8,
}

// The carriage return of the line's end counts as one.
fn is_blank(byte: u8) -> bool {
    match byte {
        b' ' | b'\t' | b'\r' => true,
        _ => false,
    }
}

// Whether one of the three names begins so.
fn begins_name(byte: u8) -> bool {
    match byte {
        b'C' | b'c' | b'T' | b't' | b'E' | b'e' => true,
        _ => false,
    }
}

// The last of these bytes that is no blank.
fn last_of(bytes: &[u8]) -> Option<u8> {
    let mut rest = bytes;
    for _ in 0..bytes.len() {
        match rest.split_last() {
            Some((byte, before)) if is_blank(*byte) => rest = before,
            Some((byte, _)) => return Some(*byte),
            None => return None,
        }
    }
    None
}

impl HeadLine {
    pub(crate) fn new() -> HeadLine {
        HeadLine {
            kept: [0; MOST_BYTES],
            len: 0,
            end: 0,
            is_other: false,
            last: 0,
        }
    }

    fn put_byte(&mut self, byte: u8) {
        let blank = is_blank(byte);
        if blank && self.last == b':' && self.end == self.len {
            return;
        }
        if self.len < MOST_BYTES {
            self.is_other |= self.len == 0 && !begins_name(byte);
            self.kept[self.len] = byte;
            self.len += 1;
        } else if !blank {
            self.is_other = true;
        }
        if !blank {
            self.end = self.len;
            self.last = byte;
        }
    }

    // Keeps the first bytes, until none of the line is asked for, and answers how many these are.
    fn keep(&mut self, bytes: &[u8]) -> usize
        ensures { result ≤ length bytes.now }
    {
        for i in 0..bytes.len() {
            if self.is_other {
                return i;
            }
            self.put_byte(bytes[i]);
        }
        bytes.len()
    }

    /// Its next bytes, none of which is a line feed.
    pub(crate) fn put(&mut self, bytes: &[u8]) {
        let kept = self.keep(bytes);
        if let Some(last) = last_of(&bytes[kept..]) {
            self.last = last;
        }
    }

    /// Whether it is the request line of version 1.1, where it is one of 1.0 or 1.1.
    pub(crate) fn ends_in_one(&self) -> bool {
        self.last == b'1'
    }

    /// The value of the header of this name, one of the three, or none where the line is another one's, or is longer than any that is
    /// asked for.
    pub(crate) fn value_of(&self, name: &[u8]) -> Option<&[u8]> {
        let line = &self.kept[..self.end.min(MOST_BYTES)];
        if self.is_other || line.len() <= name.len() || line[name.len()] != b':' {
            return None;
        }
        if line[..name.len()].eq_ignore_ascii_case(name) {
            Some(&line[name.len() + 1..])
        } else {
            None
        }
    }
}
