ghost use Rattle.std.specs.Prelude.{◌≡◌, ◌≤◌, ◌++◌, ℕ, List, true, Some, All, length};
ghost use Rattle.std.specs.List.{flat_map};
ghost use Rattle.body_frames.specs.Chunks.{IsChunked, IsPiece, chunk_text, last_text};
ghost use Rattle.body_frames.specs.Body.{IsBody, IsRefused, IsPart, StartsWithBody, First, StandsFirst, ends_itself};
ghost use Rattle.body_frames.specs.Decoded.{Decoded};
ghost use Rattle.body_frames.specs.Progress.{is_done, is_open, ends_here, fault_of};
ghost use Rattle.body_frames.specs.declared.place.Place.{Place};

use crate::frame::{BodyFault, Frame};

/// A decoder is done where the bytes that it took are a whole body that ends by itself, and only there. Where the input
/// may end are all whole bodies, and only they. What it gave is the body. It awaits more only where they are a part of
/// one.
pub fn decoded_bodies()
    ensures done { (frame : Frame) (limit : ℕ) (text body : List ℕ) (decoder : Place)
        → Decoded frame limit text body decoder → is_done decoder ≡ true
        → IsBody frame limit text body × (ends_itself frame ≡ true) }
    ensures ends { (frame : Frame) (limit : ℕ) (text body : List ℕ) (decoder : Place)
        → Decoded frame limit text body decoder → ends_here decoder ≡ true → IsBody frame limit text body }
    ensures itself { (frame : Frame) (limit : ℕ) (text body gave : List ℕ) (decoder : Place)
        → IsBody frame limit text body → ends_itself frame ≡ true → Decoded frame limit text gave decoder
        → is_done decoder ≡ true }
    ensures whole { (frame : Frame) (limit : ℕ) (text body gave : List ℕ) (decoder : Place)
        → IsBody frame limit text body → Decoded frame limit text gave decoder
        → (ends_here decoder ≡ true) × (gave ≡ body) }
    ensures awaits { (frame : Frame) (limit : ℕ) (text body : List ℕ) (decoder : Place)
        → Decoded frame limit text body decoder → is_open decoder ≡ true → IsPart frame limit text }
{}

/// A decoder is broken where the bytes that it took begin with a body that is refused, for that, and only there.
pub fn refused_bodies()
    ensures only { (frame : Frame) (limit : ℕ) (text body : List ℕ) (decoder : Place) (fault : BodyFault)
        → Decoded frame limit text body decoder → fault_of decoder ≡ Some fault
        → IsRefused frame limit text fault }
    ensures each { (frame : Frame) (limit : ℕ) (text body : List ℕ) (decoder : Place) (fault : BodyFault)
        → Decoded frame limit text body decoder → IsRefused frame limit text fault
        → fault_of decoder ≡ Some fault }
{}

/// In all bytes a whole body stands first, or one that is refused, or a part of one, and never two of these. The first
/// two stand there too when more bytes come.
pub fn first_bodies()
    ensures some { (frame : Frame) (limit : ℕ) (bytes : List ℕ)
        → (first : First) × StandsFirst frame limit bytes first }
    ensures one { (frame : Frame) (limit : ℕ) (bytes : List ℕ) (first second : First)
        → StandsFirst frame limit bytes first → StandsFirst frame limit bytes second → first ≡ second }
    ensures whole { (frame : Frame) (limit : ℕ) (bytes more body after : List ℕ)
        → StartsWithBody frame limit bytes body after
        → StartsWithBody frame limit (bytes ++ more) body (after ++ more) }
    ensures refused { (frame : Frame) (limit : ℕ) (bytes more : List ℕ) (fault : BodyFault)
        → IsRefused frame limit bytes fault → IsRefused frame limit (bytes ++ more) fault }
{}

/// A body has no more bytes than its limit.
pub fn bodies_fit()
    ensures { (frame : Frame) (limit : ℕ) (text body : List ℕ) → IsBody frame limit text body → length body ≤ limit }
{}

/// The chunks of pieces, and what ends a body, are a text of the grammar whose body is the pieces one after another.
pub fn written_chunks()
    ensures { (pieces : List (List ℕ)) → All IsPiece pieces
        → IsChunked (flat_map chunk_text pieces ++ last_text) (flat_map (λ piece. piece) pieces) }
{}
