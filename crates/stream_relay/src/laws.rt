// What the answers of a relay say, and what a client can tell.
ghost use Rattle.std.specs.Prelude.{◌≡◌, ◌≤◌, ◌<◌, ◌++◌, ℕ, List, true, Option, Some, All, length};
ghost use Rattle.body_frames.specs.Body.{StartsWithBody};
ghost use Rattle.body_frames.specs.Chunks.{IsChunked, IsPiece};
ghost use Rattle.body_frames.specs.declared.frame.Frame.{Frame};
ghost use Rattle.forward_link.specs.Reading.{rest_of};
ghost use Rattle.wire_intake.specs.Seen.{Seen};
ghost use Rattle.stream_relay.specs.declared.stream.Relayed.{Relayed};
ghost use Rattle.stream_relay.specs.declared.stream.TheConstants.{MOST_STREAMED_BYTES};
ghost use Rattle.stream_relay.specs.Relay.{OfPiece, OfEnd};
ghost use Rattle.stream_relay.specs.Stream.{Says, body_in, pieces_text, joined, last_of};

use body_frames::{decoded_bodies, first_bodies, written_chunks};

/// All bytes of a body say one way in which it ends, and never two. So each answer of a relay over a link that does not fail,
/// to a client that takes all, stands exactly where the bytes say it.
pub fn bodies_end_one_way()
    ensures some { (frame : Frame) (input : List ℕ) → (end : Relayed) × Says frame input end }
    ensures one { (frame : Frame) (input : List ℕ) (a b : Relayed) → Says frame input a → Says frame input b → a ≡ b }
{
    first_bodies();
}

/// Where a link tells what it has left to give, the bytes that a relay's answer speaks of are those that came with the head and
/// then all that the link had, whether they were read or not.
pub fn no_byte_is_left_out()
    ensures { (bytes rest seen : List ℕ) (left : Option (List ℕ)) → Seen (Some bytes) left rest seen
        → seen ++ rest_of left ≡ rest ++ bytes }
{}

/// What is relayed of bytes in which a whole body stands first is that body. Of a body that ends with its input it is all of
/// the input. What is relayed of a body that is cut is the first part of what is relayed when more bytes come. No more than
/// `MOST_STREAMED_BYTES` bytes are relayed.
pub fn bodies_are_relayed_whole()
    ensures whole { (frame : Frame) (input body after : List ℕ)
        → StartsWithBody frame MOST_STREAMED_BYTES input body after → body_in frame input ≡ body }
    ensures close { (input : List ℕ) → length input ≤ MOST_STREAMED_BYTES → body_in Frame.Close input ≡ input }
    ensures part { (frame : Frame) (input more : List ℕ) → (rest : List ℕ) × (body_in frame (input ++ more) ≡ body_in frame input ++ rest) }
    ensures fits { (frame : Frame) (input : List ℕ) → length (body_in frame input) ≤ MOST_STREAMED_BYTES }
{
    decoded_bodies();
}

/// What a client of version 1.1 gets of a whole body in chunks is a text of the grammar whose body is what was relayed. What it
/// gets of a body that is cut is none, wherever the cut falls. Of a body with a length any client gets so many bytes where it
/// is whole, and fewer where it isn't.
pub fn clients_can_tell()
    ensures whole { (pieces : List (List ℕ)) → All IsPiece pieces
        → IsChunked (pieces_text true pieces ++ last_of true) (joined pieces) }
    ensures cut { (pieces : List (List ℕ)) (body : List ℕ) → All IsPiece pieces → IsChunked (pieces_text true pieces) body → ⊥ }
    ensures within { (pieces : List (List ℕ)) (more text body : List ℕ) → All IsPiece pieces → OfPiece true more text
        → IsChunked (pieces_text true pieces ++ text) body → ⊥ }
    ensures last { (frame : Frame) (pieces : List (List ℕ)) (input more text body : List ℕ) → All IsPiece pieces
        → OfEnd frame true input more text → IsChunked (pieces_text true pieces ++ text) body → ⊥ }
    ensures length { (size : ℕ) (input : List ℕ) → Says (Frame.Length size) input Relayed.Done
        → length (body_in (Frame.Length size) input) ≡ size }
    ensures short { (size : ℕ) (input : List ℕ) (end : Relayed) → Says (Frame.Length size) input end → (end ≡ Relayed.Done → ⊥)
        → length (body_in (Frame.Length size) input) < size }
{
    first_bodies();
    written_chunks();
    bodies_are_relayed_whole();
}
