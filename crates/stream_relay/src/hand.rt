// Pieces of a body, from the bytes of its frame to the client.
ghost use Rattle.std.specs.Prelude.{◌≡◌, ◌<◌, ◌≤◌, ◌+◌, ◌⊎◌, [], true, IfOk, IfErr, OnOk, OnErr, length, take};
ghost use Rattle.std.specs.Io.KnownBytes.{Appends};
ghost use Rattle.front_ports.specs.Cause.{Rose};
ghost use Rattle.front_ports.specs.Written.{AppendsFront};
ghost use Rattle.body_frames.specs.Chunks.{IsPiece};
ghost use Rattle.body_frames.specs.Progress.{is_done, is_open, most_left};
ghost use Rattle.stream_relay.specs.Relay.{Wrote};
ghost use Rattle.stream_relay.specs.Stream.{piece_text};
ghost use Rattle.stream_relay.specs.Hand as spec;

use crate::keep::Keep;
use body_frames::{BodyFault, Decoder, chunk_frame};
use front_ports::{ByteSink, Source, write_all};
use std::alloc::Global;

// Why a piece was not written and kept.
#[derive(Clone, Copy, Debug, PartialEq, Eq)]
pub enum WriteStop {
    WriteFault,
    NoMemory,
}

// Why no more was handed on.
#[derive(Clone, Copy, Debug, PartialEq, Eq)]
pub enum HandStop {
    Body(BodyFault),
    Write(WriteStop),
}

// Why nothing more was read and handed on.
#[derive(Clone, Copy, Debug, PartialEq, Eq)]
pub enum ReadStop {
    AtEnd,
    ReadFault,
    Hand(HandStop),
}

// Writes a piece, as one chunk or bare, from one buffer.
fn write_piece<C: ByteSink>(
    alloc: Global,
    conn: &mut C,
    chunked: bool,
    piece: &[u8],
) -> Result<(), WriteStop>
    requires { 0 < length piece.now }
    ensures ok { OnOk result (Appends (C.written conn.old) (C.written conn.new) (piece_text chunked piece.now)) }
    ensures err { OnErr result (AppendsFront (C.written conn.old) (C.written conn.new) (piece_text chunked piece.now)) }
    ensures why { IfErr result (spec.Why (Rose (C.write_faults conn.old) (C.write_faults conn.new))) }
    ensures later { C.write_faults conn.old ≤ C.write_faults conn.new }
    ensures calm { OnOk result (C.write_faults conn.new ≡ C.write_faults conn.old) }
    ensures aside { C.inward conn.new ≡ C.inward conn.old }
{
    if !chunked {
        return match write_all(conn, piece) {
            Ok(()) => Ok(()),
            Err(_) => Err(WriteStop::WriteFault),
        };
    }
    let Ok(chunk) = chunk_frame(alloc, piece) else {
        return Err(WriteStop::NoMemory);
    };
    match write_all(conn, chunk.as_slice()) {
        Ok(()) => Ok(()),
        Err(_) => Err(WriteStop::WriteFault),
    }
}

// Writes and keeps a piece.
fn pass_on<C: ByteSink>(
    alloc: Global,
    conn: &mut C,
    chunked: bool,
    keep: &mut Keep,
    piece: &[u8],
) -> Result<(), WriteStop>
    requires { 0 < length piece.now }
    ensures ok { OnOk result (Wrote chunked (record { written = C.written conn.old; keep = keep.old })
        (record { written = C.written conn.new; keep = keep.new }) piece.now []) }
    ensures err { OnErr result (spec.CutPiece chunked (record { written = C.written conn.old; keep = keep.old })
        (record { written = C.written conn.new; keep = keep.new }) piece.now) }
    ensures why { IfErr result (spec.Why (Rose (C.write_faults conn.old) (C.write_faults conn.new))) }
    ensures later { C.write_faults conn.old ≤ C.write_faults conn.new }
    ensures calm { OnOk result (C.write_faults conn.new ≡ C.write_faults conn.old) }
    ensures aside { C.inward conn.new ≡ C.inward conn.old }
{
    match write_piece(alloc, conn, chunked, piece) {
        Ok(()) => {}
        Err(stop) => return Err(stop),
    }
    match keep.add(piece) {
        Ok(()) => Ok(()),
        Err(_) => Err(WriteStop::NoMemory),
    }
}

// Decodes as far as one range of the body's bytes, hands these on, and answers how many bytes were decoded.
fn hand_one<C: ByteSink>(
    alloc: Global,
    decoder: &mut Decoder,
    bytes: &[u8],
    conn: &mut C,
    chunked: bool,
    keep: &mut Keep,
) -> Result<usize, HandStop>
    ensures ok { IfOk result (λ taken. spec.HandsOn chunked decoder.old decoder.new (take taken bytes.now)
        (record { written = C.written conn.old; keep = keep.old })
        (record { written = C.written conn.new; keep = keep.new })) }
    ensures within { IfOk result (λ taken. taken ≤ length bytes.now) }
    ensures some { IfOk result (λ taken. 0 < length bytes.now → is_open decoder.old ≡ true → 0 < taken) }
    ensures falls { IfOk result (λ taken. most_left decoder.new + taken ≤ most_left decoder.old) }
    ensures awaits { OnOk result (is_done decoder.new ≡ true ⊎ is_open decoder.new ≡ true) }
    ensures err { IfErr result (spec.NotHanded chunked decoder.old bytes.now
        (record { written = C.written conn.old; keep = keep.old })
        (record { written = C.written conn.new; keep = keep.new })
        (Rose (C.write_faults conn.old) (C.write_faults conn.new))) }
    ensures later { C.write_faults conn.old ≤ C.write_faults conn.new }
    ensures calm { OnOk result (C.write_faults conn.new ≡ C.write_faults conn.old) }
    ensures aside { C.inward conn.new ≡ C.inward conn.old }
{
    let fed = match decoder.feed(bytes) {
        Ok(fed) => fed,
        Err(fault) => return Err(HandStop::Body(fault)),
    };
    if fed.from == fed.to {
        return Ok(fed.taken);
    }
    match pass_on(alloc, conn, chunked, keep, &bytes[fed.from..fed.to]) {
        Ok(()) => Ok(fed.taken),
        Err(stop) => Err(HandStop::Write(stop)),
    }
}

// Hands on the body in these bytes, up to its end, and answers how many of them were decoded.
pub fn hand_on<C: ByteSink>(
    alloc: Global,
    decoder: &mut Decoder,
    bytes: &[u8],
    conn: &mut C,
    chunked: bool,
    keep: &mut Keep,
) -> Result<usize, HandStop>
    ensures ok { IfOk result (λ taken. spec.HandsOn chunked decoder.old decoder.new (take taken bytes.now)
        (record { written = C.written conn.old; keep = keep.old })
        (record { written = C.written conn.new; keep = keep.new })) }
    ensures all { IfOk result (λ taken. (taken ≡ length bytes.now) ⊎ (is_done decoder.new ≡ true)) }
    ensures falls { OnOk result (
        0 < length bytes.now → is_open decoder.old ≡ true → most_left decoder.new < most_left decoder.old) }
    ensures awaits { OnOk result (is_done decoder.new ≡ true ⊎ is_open decoder.new ≡ true) }
    ensures err { IfErr result (spec.NotHanded chunked decoder.old bytes.now
        (record { written = C.written conn.old; keep = keep.old })
        (record { written = C.written conn.new; keep = keep.new })
        (Rose (C.write_faults conn.old) (C.write_faults conn.new))) }
    ensures later { C.write_faults conn.old ≤ C.write_faults conn.new }
    ensures calm { OnOk result (C.write_faults conn.new ≡ C.write_faults conn.old) }
    ensures aside { C.inward conn.new ≡ C.inward conn.old }
{
    let mut at = match hand_one(alloc, decoder, bytes, conn, chunked, keep) {
        Ok(taken) => taken,
        Err(stop) => return Err(stop),
    };
    'handing: while at < bytes.len() {
        if decoder.is_done() {
            return Ok(at);
        }
        match hand_one(alloc, decoder, &bytes[at..], conn, chunked, keep) {
            Ok(taken) => at += taken,
            Err(stop) => return Err(stop),
        }
    }
    Ok(at)
}

// Reads once, and hands on what came.
pub fn read_one<K: Source, C: ByteSink>(
    alloc: Global,
    link: &mut K,
    buf: &mut [u8],
    decoder: &mut Decoder,
    conn: &mut C,
    chunked: bool,
    keep: &mut Keep,
) -> Result<(), ReadStop>
    requires { 0 < length buf.old }
    ensures ok { OnOk result (spec.ReadsOn chunked decoder.old decoder.new (K.left link.old) (K.left link.new)
        (record { written = C.written conn.old; keep = keep.old })
        (record { written = C.written conn.new; keep = keep.new })) }
    ensures falls { OnOk result (is_open decoder.old ≡ true → most_left decoder.new < most_left decoder.old) }
    ensures awaits { OnOk result (is_done decoder.new ≡ true ⊎ is_open decoder.new ≡ true) }
    ensures err { IfErr result (spec.NotRead chunked decoder.old decoder.new (K.left link.old) (K.left link.new)
        (record { written = C.written conn.old; keep = keep.old })
        (record { written = C.written conn.new; keep = keep.new })
        (Rose (K.read_faults link.old) (K.read_faults link.new))
        (Rose (C.write_faults conn.old) (C.write_faults conn.new))) }
    ensures read_later { K.read_faults link.old ≤ K.read_faults link.new }
    ensures read_calm { OnOk result (K.read_faults link.new ≡ K.read_faults link.old) }
    ensures write_later { C.write_faults conn.old ≤ C.write_faults conn.new }
    ensures write_calm { OnOk result (C.write_faults conn.new ≡ C.write_faults conn.old) }
    ensures aside { K.outward link.new ≡ K.outward link.old }
    ensures inward { C.inward conn.new ≡ C.inward conn.old }
{
    let count = match link.read(buf) {
        Ok(count) => count,
        Err(_) => return Err(ReadStop::ReadFault),
    };
    if count == 0 {
        return Err(ReadStop::AtEnd);
    }
    match hand_on(alloc, decoder, &buf[..count], conn, chunked, keep) {
        Ok(_) => Ok(()),
        Err(stop) => Err(ReadStop::Hand(stop)),
    }
}
