// A body that is handed on as it comes.
ghost use Rattle.std.specs.Prelude.{◌≡◌, ◌≤◌, IfOk, OnErr};
ghost use Rattle.front_ports.specs.Cause.{Rose};
ghost use Rattle.stream_relay.specs.Hand as hand;
ghost use Rattle.stream_relay.specs.Relay as spec;
ghost use Rattle.stream_relay.specs.Stream.{gets_chunks};

use crate::hand::{HandStop, ReadStop, WriteStop, hand_on, read_one};
use crate::keep::Keep;
use body_frames::{
    BodyFault, Decoder, Frame, decoded_bodies, first_bodies, last_frame, refused_bodies,
};
use front_base::NoMemory;
use front_ports::{ByteSink, Source, write_counted};
use std::alloc::Global;

/// The most bytes of one body that is handed on, 2^63.
pub const MOST_STREAMED_BYTES: u64 = 9223372036854775808;

// The most bytes of one read.
const MOST_READ_BYTES: usize = 32768;

/// How a relay ended.
#[derive(Clone, Copy, Debug, PartialEq, Eq)]
pub enum Relayed {
    /// The body came whole and was written whole, with the last chunk where the client gets chunks.
    Done,
    /// The backend's bytes end before the body does, or break its chunks, or a read of the link failed.
    BackendCut,
    /// A write to the client failed.
    WriteFault,
    /// The next chunk, or the next byte, would carry the body over `MOST_STREAMED_BYTES`.
    StreamSpent,
}

// What decoders say of bodies.
fn body_laws()
    ensures { hand.BodyLaws }
{
    decoded_bodies();
    refused_bodies();
    first_bodies();
}

fn is_chunked(frame: Frame, old_client: bool) -> bool
    ensures { result ≡ gets_chunks frame old_client }
{
    match frame {
        Frame::Chunked | Frame::Close => !old_client,
        Frame::NoBody | Frame::Length(_) => false,
    }
}

// What a stop makes of the relay.
fn stopped(stop: HandStop) -> Result<Relayed, NoMemory>
    ensures ok { IfOk result (hand.StopsAs stop) }
    ensures err { OnErr result (stop ≡ HandStop.Write WriteStop.NoMemory) }
{
    match stop {
        HandStop::Body(BodyFault::TooLarge) => Ok(Relayed::StreamSpent),
        HandStop::Body(BodyFault::BadChunk { .. }) => Ok(Relayed::BackendCut),
        HandStop::Write(WriteStop::WriteFault) => Ok(Relayed::WriteFault),
        HandStop::Write(WriteStop::NoMemory) => Err(NoMemory),
    }
}

// Writes what ends a whole body.
fn finish<C: ByteSink>(conn: &mut C, chunked: bool) -> Relayed
    ensures end { hand.Finishes chunked (C.written conn.old) (C.written conn.new)
        (Rose (C.write_faults conn.old) (C.write_faults conn.new)) result }
    ensures later { C.write_faults conn.old ≤ C.write_faults conn.new }
    ensures aside { C.inward conn.new ≡ C.inward conn.old }
{
    if !chunked {
        return Relayed::Done;
    }
    match write_counted(conn, &last_frame()) {
        Ok(()) => Relayed::Done,
        Err(_) => Relayed::WriteFault,
    }
}

/// Hands a body in that frame on to a client: `rest`, which came with its head, and then what the link gives. A client of
/// version 1.1 gets one chunk for each piece where the frame is `Chunked` or `Close`, and the last chunk once the body is
/// whole; an old client, and any client of a body with a length, gets the bare bytes. Each piece is written when it came.
/// After any answer but `Done` nothing more may be written to the client, so that it sees the body cut. The link is not
/// handed back to its dial.
pub fn relay<K: Source, C: ByteSink>(
    alloc: Global,
    link: &mut K,
    frame: Frame,
    rest: &[u8],
    conn: &mut C,
    old_client: bool,
    keep: &mut Keep,
) -> Result<Relayed, NoMemory>
    ensures ok { IfOk result (spec.Relays frame (gets_chunks frame old_client) rest.now (K.left link.old) (K.left link.new)
        (record { written = C.written conn.old; keep = keep.old })
        (record { written = C.written conn.new; keep = keep.new })
        (Rose (K.read_faults link.old) (K.read_faults link.new))
        (Rose (C.write_faults conn.old) (C.write_faults conn.new))) }
    ensures err { OnErr result (spec.Stopped frame (gets_chunks frame old_client) rest.now (K.left link.old) (K.left link.new)
        (record { written = C.written conn.old; keep = keep.old })
        (record { written = C.written conn.new; keep = keep.new })) }
    ensures read_faults { K.read_faults link.old ≤ K.read_faults link.new }
    ensures write_faults { C.write_faults conn.old ≤ C.write_faults conn.new }
    ensures aside { K.outward link.new ≡ K.outward link.old }
    ensures inward { C.inward conn.new ≡ C.inward conn.old }
{
    body_laws();
    let chunked = is_chunked(frame, old_client);
    let mut decoder = Decoder::new(frame, MOST_STREAMED_BYTES);
    match hand_on(alloc, &mut decoder, rest, conn, chunked, keep) {
        Ok(_) => {}
        Err(stop) => return stopped(stop),
    }
    let Ok(mut buf) = vec![in alloc; 0u8; MOST_READ_BYTES] else {
        return Err(NoMemory);
    };
    'reading: while !decoder.is_done() {
        let stop = match read_one(
            alloc,
            link,
            buf.as_mut_slice(),
            &mut decoder,
            conn,
            chunked,
            keep,
        ) {
            Ok(()) => continue,
            Err(stop) => stop,
        };
        match stop {
            ReadStop::AtEnd => {}
            ReadStop::ReadFault => return Ok(Relayed::BackendCut),
            ReadStop::Hand(stop) => return stopped(stop),
        }
        if decoder.ends_here() {
            return Ok(finish(conn, chunked));
        }
        return Ok(Relayed::BackendCut);
    }
    Ok(finish(conn, chunked))
}
