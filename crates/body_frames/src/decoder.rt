ghost use Rattle.std.specs.Prelude.{◌≡◌, [], ◌<◌, ◌≤◌, ◌+◌, not, true, Some, IfOk, IfErr, IsTrue, length};
ghost use Rattle.body_frames.specs.Machine as spec;
ghost use Rattle.body_frames.specs.Progress as progress;
ghost use Rattle.body_frames.specs.Decoded as decoded;

use crate::frame::{BodyFault, Frame};
use crate::place::{Mode, Place, ends_here, is_done, pass_data, pass_framing};
use std::marker::Model;

/// What a feed took: `taken` bytes, of which those from `from` to `to` are the body's.
#[derive(Clone, Copy, Debug, PartialEq, Eq)]
pub struct Fed {
    pub taken: usize,
    pub from: usize,
    pub to: usize,
    pub done: bool,
}

// Where a body begins.
fn first_place(frame: Frame, limit: u64) -> Place
    ensures { result ≡ spec.start frame limit }
{
    let mode = match frame {
        Frame::NoBody => Mode::Done,
        Frame::Length(n) if limit < n => Mode::Broken(BodyFault::TooLarge),
        Frame::Length(0) => Mode::Done,
        Frame::Length(n) => Mode::Whole(n),
        Frame::Chunked => Mode::Digits { line: 0, size: 0 },
        Frame::Close => Mode::Open,
    };
    Place {
        mode,
        framed: 0,
        room: limit,
    }
}

fn feed_place(place: &mut Place, piece: &[u8]) -> Result<Fed, BodyFault>
    requires { IsTrue (spec.is_sound place.old) }
    ensures sound { IsTrue (spec.is_sound place.new) }
    ensures took { IfOk result (λ fed.
        spec.Took place.old place.new piece.now fed.taken fed.from fed.to) }
    ensures done { IfOk result (λ fed. fed.done ≡ spec.is_done place.new) }
    ensures awaits { IfOk result (λ fed. spec.is_open place.new ≡ not fed.done) }
    ensures some { IfOk result (λ fed.
        0 < length piece.now → spec.is_open place.old ≡ true → 0 < fed.taken) }
    ensures falls { IfOk result (λ fed.
        spec.most_left place.new + fed.taken ≤ spec.most_left place.old) }
    ensures err { IfErr result (spec.BreaksIn place.old place.new piece.now) }
    ensures again { (fault : BodyFault) → spec.fault_of place.old ≡ Some fault
        → (result ≡ Err fault) × (place.new ≡ place.old) }
{
    let from = pass_framing(place, piece);
    if let Mode::Broken(fault) = place.mode {
        return Err(fault);
    }
    let size = pass_data(place, &piece[from..]);
    let to = from + size;
    Ok(Fed {
        taken: to,
        from,
        to,
        done: is_done(place),
    })
}

/// Decodes a body as it comes. `Decoded` says which bytes a decoder took and which it gave, and the laws
/// `decoded_bodies` and `refused_bodies` what its tests then say of them.
#[derive(Debug, Drop)]
pub struct Decoder {
    place: Place,
}

impl Model for Decoder {
    ghost use Rattle.std.specs.Prelude.{IsTrue};
    ghost use Rattle.body_frames.specs.declared.place.Place.{Place};
    ghost use Rattle.body_frames.specs.Machine.{is_sound};

    ghost Value = { Place };

    ghost view = { λ d. d.place };

    ghost invariant = { λ d. IsTrue (is_sound d.place) };
}

impl Decoder {
    /// A decoder of a body of at most `limit` bytes. A `Length` above the limit is refused at the first feed.
    pub fn new(frame: Frame, limit: u64) -> Decoder
        ensures { decoded.Decoded frame limit [] [] result }
    {
        Decoder {
            place: first_place(frame, limit),
        }
    }

    /// Whether the body is whole, so that the next byte isn't its own.
    pub fn is_done(&self) -> bool
        ensures { result ≡ progress.is_done self.now }
    {
        is_done(&self.place)
    }

    /// Whether the body is whole if the input ends here, as one of `Frame::Close` is that exceeds no limit.
    pub fn ends_here(&self) -> bool
        ensures { result ≡ progress.ends_here self.now }
    {
        ends_here(&self.place)
    }

    /// Takes the piece's first bytes: those of the framing that come next, and then those of the body, as
    /// many as come in one range. After a fault each feed answers that fault again.
    pub fn feed(&mut self, piece: &[u8]) -> Result<Fed, BodyFault>
        ensures took { IfOk result (λ fed.
            decoded.Feeds self.old self.new piece.now fed.taken fed.from fed.to) }
        ensures done { IfOk result (λ fed. fed.done ≡ progress.is_done self.new) }
        ensures awaits { IfOk result (λ fed. progress.is_open self.new ≡ not fed.done) }
        ensures some { IfOk result (λ fed.
            0 < length piece.now → progress.is_open self.old ≡ true → 0 < fed.taken) }
        ensures falls { IfOk result (λ fed.
            progress.most_left self.new + fed.taken ≤ progress.most_left self.old) }
        ensures err { IfErr result (decoded.Refuses self.old self.new piece.now) }
        ensures again { (fault : BodyFault) → progress.fault_of self.old ≡ Some fault
            → (result ≡ Err fault) × (self.new ≡ self.old) }
    {
        feed_place(&mut self.place, piece)
    }
}
