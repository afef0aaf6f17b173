// A place in a body, and how the bytes that come move it.
ghost use Rattle.std.specs.Prelude.{◌≡◌, ◌<◌, ◌≤◌, ◌+◌, ◌-◌, ℕ, false, true, [], None, IsTrue};
ghost use Rattle.std.specs.Prelude.{length, take, drop, min};
ghost use Rattle.body_frames.specs.Chunks as chunks;
ghost use Rattle.body_frames.specs.Machine as spec;

use crate::frame::BodyFault;

/// What is awaited.
#[derive(Clone, Copy, Debug, PartialEq, Eq)]
pub enum Mode {
    /// So many bytes of a body of a known length, one at least.
    Whole(u64),
    /// Bytes of a body that ends where the connection does.
    Open,
    /// A digit of a size line, or what may follow one. `line` counts the bytes of the line so far.
    Digits { line: u64, size: u64 },
    /// A blank after the digits, or what may follow one.
    Blank { line: u64, size: u64 },
    /// A byte of an extension, or the line's end.
    Extension { line: u64, size: u64 },
    /// The LF of a size line.
    LineFeed(u64),
    /// So many bytes of a chunk, one at least.
    Data(u64),
    /// The CR and the LF after a chunk's bytes.
    DataReturn,
    DataFeed,
    /// The CR and the LF after the last size line.
    LastReturn,
    LastFeed,
    /// Nothing: the body is whole.
    Done,
    /// A byte came after the end. No decoder gets here.
    Past,
    Broken(BodyFault),
}

/// A place in a body: what is awaited, how many bytes came, and how many the limit leaves for the body.
#[derive(Clone, Copy, Debug, PartialEq, Eq)]
pub struct Place {
    pub mode: Mode,
    pub framed: u64,
    pub room: u64,
}

#[tactic(auto, unfolding(crate::specs::Chunks::digit_value))]
fn digit_value(b: u8) -> u64
    ensures { result ≡ chunks.digit_value b }
{
    match b {
        b'0'..=b'9' => (b - b'0') as u64,
        b'a'..=b'f' => (b - b'a') as u64 + 10,
        b'A'..=b'F' => (b - b'A') as u64 + 10,
        _ => 16,
    }
}

fn after_digits(framed: u64, line: u64, size: u64, b: u8) -> Mode
    ensures { result ≡ spec.after_digits framed line size b }
{
    if b == b'\r' {
        Mode::LineFeed(size)
    } else if (b == b' ' || b == b'\t') && line < 254 {
        Mode::Blank {
            line: line + 1,
            size,
        }
    } else if b == b';' && line < 254 {
        Mode::Extension {
            line: line + 1,
            size,
        }
    } else {
        Mode::Broken(BodyFault::BadChunk { at: framed })
    }
}

// That byte, and no other.
fn expect(framed: u64, wanted: u8, next: Mode, b: u8) -> Mode
    ensures { result ≡ spec.expect framed wanted next b }
{
    if b == wanted {
        next
    } else {
        Mode::Broken(BodyFault::BadChunk { at: framed })
    }
}

fn after_line(room: u64, size: u64) -> Mode
    ensures { result ≡ spec.after_line room size }
{
    if size == 0 {
        Mode::LastReturn
    } else if size <= room {
        Mode::Data(size)
    } else {
        Mode::Broken(BodyFault::TooLarge)
    }
}

fn after_size(framed: u64, line: u64, size: u64, b: u8) -> Mode
    requires { IsTrue (spec.is_sound_mode 0 (Mode.Digits line size)) }
    ensures { result ≡ spec.next_mode framed 0 (Mode.Digits line size) b }
{
    let digit = digit_value(b);
    if digit < 16 && line < 16 {
        Mode::Digits {
            line: line + 1,
            size: size * 16 + digit,
        }
    } else if line == 0 {
        Mode::Broken(BodyFault::BadChunk { at: framed })
    } else {
        after_digits(framed, line, size, b)
    }
}

fn after_extension(framed: u64, line: u64, size: u64, b: u8) -> Mode
    ensures { result ≡ spec.next_mode framed 0 (Mode.Extension line size) b }
{
    if b == b'\r' {
        Mode::LineFeed(size)
    } else if b != b'\n' && line < 254 {
        Mode::Extension {
            line: line + 1,
            size,
        }
    } else {
        Mode::Broken(BodyFault::BadChunk { at: framed })
    }
}

// What is awaited after a byte that isn't one of the body's.
fn next_mode(place: &Place, b: u8) -> Mode
    requires sound { IsTrue (spec.is_sound place.now) }
    requires framing { spec.is_framing place.now ≡ true }
    ensures { result ≡ spec.next_mode place.now.framed place.now.room place.now.mode b }
{
    let framed = place.framed;
    match place.mode {
        Mode::Digits { line, size } => after_size(framed, line, size, b),
        Mode::Blank { line, size } => after_digits(framed, line, size, b),
        Mode::Extension { line, size } => after_extension(framed, line, size, b),
        Mode::LineFeed(size) => {
            if b == b'\n' {
                after_line(place.room, size)
            } else {
                Mode::Broken(BodyFault::BadChunk { at: framed })
            }
        }
        Mode::DataReturn => expect(framed, b'\r', Mode::DataFeed, b),
        Mode::DataFeed => expect(framed, b'\n', Mode::Digits { line: 0, size: 0 }, b),
        Mode::LastReturn => expect(framed, b'\r', Mode::LastFeed, b),
        Mode::LastFeed => expect(framed, b'\n', Mode::Done, b),
        Mode::Open => Mode::Broken(BodyFault::TooLarge),
        mode => mode,
    }
}

// How many bytes of the body may come next, one after another.
fn data_left(place: &Place) -> u64
    ensures { result ≡ spec.data_left place.now }
{
    match place.mode {
        Mode::Whole(n) | Mode::Data(n) => n,
        Mode::Open => place.room,
        _ => 0,
    }
}

fn is_framing(place: &Place) -> bool
    ensures { result ≡ spec.is_framing place.now }
{
    match place.mode {
        Mode::Whole(_) | Mode::Data(_) | Mode::Done | Mode::Past | Mode::Broken(_) => false,
        Mode::Open => place.room == 0,
        _ => true,
    }
}

pub fn is_done(place: &Place) -> bool
    ensures { result ≡ spec.is_done place.now }
{
    match place.mode {
        Mode::Done => true,
        _ => false,
    }
}

pub fn ends_here(place: &Place) -> bool
    ensures { result ≡ spec.ends_here place.now }
{
    match place.mode {
        Mode::Done | Mode::Open => true,
        _ => false,
    }
}

fn move_on(place: &mut Place, b: u8)
    requires sound { IsTrue (spec.is_sound place.old) }
    requires framing { spec.is_framing place.old ≡ true }
    ensures { place.new ≡ spec.step place.old b }
{
    let mode = next_mode(place, b);
    place.framed = place.framed.saturating_add(1);
    place.mode = mode;
}

// One byte of the framing.
fn step(place: &mut Place, b: u8)
    requires sound { IsTrue (spec.is_sound place.old) }
    requires framing { spec.is_framing place.old ≡ true }
    ensures moved { place.new ≡ spec.step place.old b }
    ensures sound { IsTrue (spec.is_sound place.new) }
    ensures falls { spec.most_left place.new < spec.most_left place.old }
{
    move_on(place, b);
}

// So many bytes of the body.
fn jump(place: &mut Place, size: u64)
    requires some { 0 < size }
    requires within { size ≤ spec.data_left place.old }
    requires sound { IsTrue (spec.is_sound place.old) }
    ensures { place.new ≡ spec.jump place.old size }
{
    place.mode = match place.mode {
        Mode::Whole(n) if n == size => Mode::Done,
        Mode::Whole(n) => Mode::Whole(n - size),
        Mode::Data(n) if n == size => Mode::DataReturn,
        Mode::Data(n) => Mode::Data(n - size),
        mode => mode,
    };
    place.framed = place.framed.saturating_add(size);
    place.room -= size;
}

// Passes the bytes of the framing that come next.
pub fn pass_framing(place: &mut Place, piece: &[u8]) -> usize
    requires { IsTrue (spec.is_sound place.old) }
    ensures within { result ≤ length piece.now }
    ensures moved { place.new ≡ spec.run place.old (take result piece.now) }
    ensures nothing { spec.emitted place.old (take result piece.now) ≡ [] }
    ensures sound { IsTrue (spec.is_sound place.new) }
    ensures stops { result < length piece.now → spec.is_framing place.new ≡ false }
    ensures held { spec.is_framing place.old ≡ false → result ≡ 0 }
    ensures falls { spec.most_left place.new + result ≤ spec.most_left place.old }
{
    let mut at = 0;
    while at < piece.len() && is_framing(place) {
        step(place, piece[at]);
        at += 1;
    }
    at
}

// Passes the bytes of the body that come next, in one range.
pub fn pass_data(place: &mut Place, piece: &[u8]) -> usize
    requires sound { IsTrue (spec.is_sound place.old) }
    requires whole { spec.fault_of place.old ≡ None }
    ensures within { result ≤ length piece.now }
    ensures moved { place.new ≡ spec.run place.old (take result piece.now) }
    ensures body { spec.emitted place.old (take result piece.now) ≡ take result piece.now }
    ensures sound { IsTrue (spec.is_sound place.new) }
    ensures whole { spec.fault_of place.new ≡ None }
    ensures stops { result < length piece.now → spec.is_data place.new ≡ false }
    ensures falls { spec.most_left place.new + result ≤ spec.most_left place.old }
{
    let size = data_left(place).min(piece.len() as u64);
    if 0 < size {
        jump(place, size);
    }
    size as usize
}
