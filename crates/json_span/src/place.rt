ghost use Rattle.std.specs.Prelude.{◌≡◌, ◌≤◌, ◌<◌, true, length, take, slice_index, IfSome, Some, None, if◌then◌else◌};
ghost use Rattle.std.specs.List.{list_all};
ghost use Rattle.json_span.specs.Strings as strings;
ghost use Rattle.json_span.specs.Machine as spec;
ghost use Rattle.json_span.specs.Span as span;
ghost use Rattle.json_span.specs.declared.nesting.Kind.TheVariants as kind;

use crate::nesting::{Kind, Nesting};
use crate::string::{Inside, plain_len, string_ends, string_step};
use crate::token::{Token, token_ends, token_first, token_step};

// What may come next in a text.
#[derive(Clone, Copy, Debug, PartialEq, Eq)]
pub enum Mode {
    Before,
    FirstItem,
    FirstName,
    Name,
    InName(Inside),
    Colon,
    InToken(Token),
    After,
}

// Where a text stands: what is open, and what may come next.
#[derive(Debug, Drop)]
pub struct Place {
    pub nesting: Nesting,
    pub mode: Mode,
}

fn is_blank(byte: u8) -> bool
    ensures { result ≡ strings.is_blank byte }
{
    matches!(byte, b' ' | b'\t' | b'\n' | b'\r')
}

// How many bytes at the start are blanks.
fn blank_len(text: &[u8]) -> usize
    ensures within { result ≤ length text.now }
    ensures blank { list_all strings.is_blank (take result text.now) ≡ true }
{
    let mut len = 0;
    while len < text.len() && is_blank(text[len]) {
        len += 1;
    }
    len
}

impl Place {
    pub fn new() -> Place
        ensures { result ≡ spec.start }
    {
        Place {
            nesting: Nesting::new(),
            mode: Mode::Before,
        }
    }

    fn opens(&mut self, kind: Kind, mode: Mode) -> bool
        ensures { spec.opens self.old.nesting kind mode ≡ (if result then Some self.new else None) }
    {
        self.mode = mode;
        self.nesting.open(kind)
    }

    fn closes(&mut self, kind: Kind) -> bool
        ensures { spec.closes kind self.old.nesting ≡ (if result then Some self.new else None) }
    {
        let innermost = self.nesting.innermost();
        self.nesting.close();
        self.mode = Mode::After;
        innermost == Some(kind)
    }

    // A comma.
    fn separates(&mut self) -> bool
        ensures { spec.separates self.old.nesting ≡ (if result then Some self.new else None) }
    {
        match self.nesting.innermost() {
            Some(Kind::Array) => self.mode = Mode::Before,
            Some(Kind::Object) => self.mode = Mode::Name,
            None => return false,
        }
        true
    }

    // A byte after a value.
    fn follows(&mut self, byte: u8) -> bool
        ensures { spec.follows self.old.nesting byte ≡ (if result then Some self.new else None) }
    {
        match byte {
            b' ' | b'\t' | b'\n' | b'\r' => {
                self.mode = Mode::After;
                true
            }
            b',' => self.separates(),
            b']' => self.closes(Kind::Array),
            b'}' => self.closes(Kind::Object),
            _ => false,
        }
    }

    // A byte where a value begins.
    fn begins(&mut self, byte: u8) -> bool
        ensures { spec.begins self.old.nesting self.old.mode byte
            ≡ (if result then Some self.new else None) }
    {
        match byte {
            b' ' | b'\t' | b'\n' | b'\r' => true,
            b'[' => self.opens(Kind::Array, Mode::FirstItem),
            b'{' => self.opens(Kind::Object, Mode::FirstName),
            _ => match token_first(byte) {
                Some(token) => {
                    self.mode = Mode::InToken(token);
                    true
                }
                None => false,
            },
        }
    }

    // A byte where a name begins.
    fn names(&mut self, byte: u8) -> bool
        ensures { spec.names self.old.nesting self.old.mode byte
            ≡ (if result then Some self.new else None) }
    {
        if byte == b'"' {
            self.mode = Mode::InName(Inside::Plain);
            return true;
        }
        is_blank(byte)
    }

    // A byte after a name.
    fn colon(&mut self, byte: u8) -> bool
        ensures { spec.colon self.old.nesting byte ≡ (if result then Some self.new else None) }
    {
        if byte == b':' {
            self.mode = Mode::Before;
            return true;
        }
        self.mode = Mode::Colon;
        is_blank(byte)
    }

    fn in_token(&mut self, token: Token, byte: u8) -> bool
        ensures { spec.mode_step self.old.nesting (Mode.InToken token) byte
            ≡ (if result then Some self.new else None) }
    {
        match token_step(token, byte) {
            Some(next) => {
                self.mode = Mode::InToken(next);
                true
            }
            None => token_ends(token) && self.follows(byte),
        }
    }

    fn in_name(&mut self, inside: Inside, byte: u8) -> bool
        ensures { spec.mode_step self.old.nesting (Mode.InName inside) byte
            ≡ (if result then Some self.new else None) }
    {
        match string_step(inside, byte) {
            Some(next) => {
                self.mode = Mode::InName(next);
                true
            }
            None => string_ends(inside) && self.colon(byte),
        }
    }

    // Passes the byte, or says that no text goes on with it.
    fn passes(&mut self, byte: u8) -> bool
        ensures { spec.place_step self.old byte ≡ (if result then Some self.new else None) }
    {
        match self.mode {
            Mode::Before => self.begins(byte),
            Mode::FirstItem if byte == b']' => self.closes(Kind::Array),
            Mode::FirstItem => self.begins(byte),
            Mode::FirstName if byte == b'}' => self.closes(Kind::Object),
            Mode::FirstName | Mode::Name => self.names(byte),
            Mode::InName(inside) => self.in_name(inside, byte),
            Mode::Colon => self.colon(byte),
            Mode::InToken(token) => self.in_token(token, byte),
            Mode::After => self.follows(byte),
        }
    }

    // How many bytes at the start leave the place as it is.
    fn run_len(&self, text: &[u8]) -> usize
        ensures within { result ≤ length text.now }
        ensures stays { list_all (spec.stays self.now.mode) (take result text.now) ≡ true }
    {
        match self.mode {
            Mode::InName(Inside::Plain) | Mode::InToken(Token::Text(Inside::Plain)) => {
                plain_len(text)
            }
            Mode::InName(_) | Mode::InToken(_) => 0,
            _ => blank_len(text),
        }
    }

    // Passes a run, or one byte, and says how many bytes that were; or says that no text goes on with the first byte.
    pub fn pass(&mut self, text: &[u8]) -> Option<usize>
        requires { 0 < length text.now }
        ensures passed { IfSome result (λ n.
            (0 < n) × (n ≤ length text.now) × span.Passed self.old (take n text.now) self.new) }
        ensures refused { result ≡ None → spec.place_step self.old (slice_index text.now 0) ≡ None }
    {
        let run = self.run_len(text);
        if 0 < run {
            return Some(run);
        }
        if self.passes(text[0]) { Some(1) } else { None }
    }

    // Whether a text may end here.
    pub fn ends(&self) -> bool
        ensures { result ≡ spec.place_ends self.now }
    {
        self.nesting.is_empty()
            && match self.mode {
                Mode::InToken(token) => token_ends(token),
                Mode::After => true,
                _ => false,
            }
    }

    // Whether compact text keeps a byte that led here.
    pub fn keeps(&self, byte: u8) -> bool
        ensures { result ≡ spec.keeps self.now byte }
    {
        matches!(self.mode, Mode::InName(_) | Mode::InToken(_)) || !is_blank(byte)
    }
}
