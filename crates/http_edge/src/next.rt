// The next request of a connection.
ghost use Rattle.std.specs.Prelude.{◌≡◌, ◌≤◌, [], IfOk, IfErr, OnOk, length};
ghost use Rattle.front_ports.specs.Cause.{Rose};
ghost use Rattle.http_edge.specs.Calls as calls;
ghost use Rattle.http_edge.specs.Requests as spec;

use crate::{End, MOST_BODY_BYTES, Request, Stop};
use body_frames::{BodyFault, Frame, bodies_fit};
use front_base::{Bytes, NoMemory};
use front_ports::Source;
use http_head::{
    Framing, Head, asks_to_close, blocks_are_bounded, blocks_stay, framing, request_of,
};
use std::alloc::Global;
use std::marker::Model;
use wire_intake::{BlockStop, BodyStop, Intake, MOST_HELD_BYTES, ReadStop, next_block, next_body};

fn frame_of(head: &Head) -> Option<Frame>
    ensures { result ≡ spec.frame_of head.now }
{
    match framing(&head.headers, head.minor) {
        Framing::NoBody => Some(Frame::NoBody),
        Framing::Length(size) => Some(Frame::Length(size)),
        Framing::Chunked => Some(Frame::Chunked),
        Framing::Bad => None,
    }
}

/// Whether no request follows this one: it is of version 1.0, or asks to close.
pub fn asks(request: &Request) -> bool
    ensures { result ≡ spec.asks request.now }
{
    request.head.minor == 0 || asks_to_close(&request.head.headers)
}

fn is_blank(bytes: &[u8]) -> bool
    ensures { result ≡ spec.is_blank bytes.now }
{
    bytes.iter().all(|b| *b == b'\r' || *b == b'\n')
}

fn stop_of_block(held: &[u8], stop: BlockStop) -> Stop
    ensures { result ≡ calls.stop_of_block held.now stop }
{
    match stop {
        BlockStop::TooLarge => Stop::Refused(End::HeadTooLarge),
        BlockStop::Input(ReadStop::AtEnd) => {
            if is_blank(held) {
                Stop::Refused(End::Ended)
            } else {
                Stop::Refused(End::CutShort)
            }
        }
        BlockStop::Input(ReadStop::ReadFault) => Stop::ReadFault,
        BlockStop::Input(ReadStop::NoMemory) => Stop::NoMemory,
    }
}

fn stop_of_body(stop: BodyStop) -> Stop
    ensures { result ≡ calls.stop_of_body stop }
{
    match stop {
        BodyStop::Fault(BodyFault::BadChunk { .. }) => Stop::Refused(End::BadFraming),
        BodyStop::Fault(BodyFault::TooLarge) => Stop::Refused(End::BodyTooLarge),
        BodyStop::Input(ReadStop::AtEnd) => Stop::Refused(End::CutShort),
        BodyStop::Input(ReadStop::ReadFault) => Stop::ReadFault,
        BodyStop::Input(ReadStop::NoMemory) => Stop::NoMemory,
    }
}

// The next head, or why there is none. What was held or read and is not the head's is held.
fn next_head<C: Source>(alloc: Global, conn: &mut C, intake: &mut Intake) -> Result<Head, Stop>
    ensures ok { IfOk result (λ head.
        calls.GotHead (C.left conn.old) (C.left conn.new) intake.old intake.new head) }
    ensures err { IfErr result (λ stop.
        calls.NoRequest (C.left conn.old) (C.left conn.new) intake.old
        (Rose (C.read_faults conn.old) (C.read_faults conn.new)) stop) }
    ensures later { C.read_faults conn.old ≤ C.read_faults conn.new }
    ensures calm { OnOk result (C.read_faults conn.new ≡ C.read_faults conn.old) }
    ensures told { IfErr result (calls.KeepsCount (C.read_faults conn.old) (C.read_faults conn.new)) }
    ensures aside { C.outward conn.new ≡ C.outward conn.old }
{
    let length = match next_block(conn, intake) {
        Ok(length) => length,
        Err(stop) => return Err(stop_of_block(intake.as_slice(), stop)),
    };
    match request_of(alloc, &intake.as_slice()[..length]) {
        Ok(Some(head)) => {
            intake.skip(length);
            Ok(head)
        }
        Ok(None) => Err(Stop::Refused(End::BadHead)),
        Err(_) => Err(Stop::NoMemory),
    }
}

fn next_whole<C: Source>(alloc: Global, conn: &mut C, intake: &mut Intake) -> Result<Request, Stop>
    ensures ok { IfOk result (λ request.
        calls.GotRequest (C.left conn.old) (C.left conn.new) intake.old intake.new request) }
    ensures fits { IfOk result (λ request. length request.body ≤ MOST_BODY_BYTES) }
    ensures err { IfErr result (λ stop.
        calls.NoRequest (C.left conn.old) (C.left conn.new) intake.old
        (Rose (C.read_faults conn.old) (C.read_faults conn.new)) stop) }
    ensures later { C.read_faults conn.old ≤ C.read_faults conn.new }
    ensures calm { OnOk result (C.read_faults conn.new ≡ C.read_faults conn.old) }
    ensures told { IfErr result (calls.KeepsCount (C.read_faults conn.old) (C.read_faults conn.new)) }
    ensures aside { C.outward conn.new ≡ C.outward conn.old }
{
    blocks_are_bounded();
    blocks_stay();
    bodies_fit();
    let head = match next_head(alloc, conn, intake) {
        Ok(head) => head,
        Err(stop) => return Err(stop),
    };
    let Some(frame) = frame_of(&head) else {
        return Err(Stop::Refused(End::BadFraming));
    };
    match next_body(alloc, conn, intake, frame, MOST_BODY_BYTES) {
        Ok(body) => Ok(Request {
            head,
            body: Bytes::new(body),
        }),
        Err(stop) => Err(stop_of_body(stop)),
    }
}

/// The requests of a connection. Contracts see the bytes that were read and not yet used, as a list.
#[derive(Debug, Drop)]
pub struct Edge {
    intake: Intake,
}

impl Model for Edge {
    ghost use Rattle.std.specs.Prelude.{ℕ, List};

    ghost Value = { List ℕ };

    ghost view = { λ e. e.intake };
}

impl Edge {
    /// An edge that holds nothing. Room for one read is taken.
    pub fn new(alloc: Global) -> Result<Edge, NoMemory>
        ensures { IfOk result (λ edge. edge ≡ []) }
    {
        Ok(Edge {
            intake: Intake::new(alloc)?,
        })
    }

    /// How many bytes of the connection the requests so far took up, for messages: no clause says so.
    pub fn used(&self) -> u64 {
        self.intake.used()
    }

    /// The next request of the connection, whose body has at most `MOST_BODY_BYTES`. Of the stops only `ReadFault` comes
    /// with another count of failed reads. After an `Err` the edge isn't used again.
    pub fn next_request<C: Source>(&mut self, alloc: Global, conn: &mut C) -> Result<Request, Stop>
        ensures ok { IfOk result (λ request.
            calls.GotRequest (C.left conn.old) (C.left conn.new) self.old self.new request) }
        ensures fits { IfOk result (λ request. length request.body ≤ MOST_BODY_BYTES) }
        ensures err { IfErr result (λ stop.
            calls.NoRequest (C.left conn.old) (C.left conn.new) self.old
            (Rose (C.read_faults conn.old) (C.read_faults conn.new)) stop) }
        ensures later { C.read_faults conn.old ≤ C.read_faults conn.new }
        ensures calm { OnOk result (C.read_faults conn.new ≡ C.read_faults conn.old) }
        ensures told { IfErr result (calls.KeepsCount (C.read_faults conn.old) (C.read_faults conn.new)) }
        ensures aside { C.outward conn.new ≡ C.outward conn.old }
    {
        next_whole(alloc, conn, &mut self.intake)
    }
}
