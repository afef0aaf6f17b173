// The head of a reply that a link gives, and a body that is read whole.
ghost use Rattle.std.specs.Prelude.{◌≡◌, ◌<◌, ◌≤◌, [], IfOk, IfErr, OnOk, length, vec_len};
ghost use Rattle.front_ports.specs.Cause.{Rose};
ghost use Rattle.wire_intake.specs.Seen.{NotRead, Refilled, Seen};
ghost use Rattle.forward_link.specs.Reading as spec;

use crate::kind::{HeadKind, MOST_INTERIM, kind_of};
use body_frames::Frame;
use front_ports::Source;
use http_head::{ReplyHead, blocks_are_bounded, blocks_stay, reply_of};
use std::alloc::Global;
use wire_intake::{BlockStop, Intake, ReadStop, next_block};

// The most bytes of one read of a body.
const MOST_BODY_READ_BYTES: usize = 65536;

// Why no reply came.
#[derive(Clone, Copy)]
pub enum ReplyStop {
    BadReply,
    Input(ReadStop),
}

// A final head, and the frame of the body that follows it.
#[derive(Drop)]
pub struct FinalHead {
    pub head: ReplyHead,
    pub frame: Frame,
}

fn stop_of(stop: BlockStop) -> ReplyStop
    ensures { result ≡ spec.stop_of stop }
{
    match stop {
        BlockStop::TooLarge => ReplyStop::BadReply,
        BlockStop::Input(stop) => ReplyStop::Input(stop),
    }
}

// The next head.
fn next_head<K: Source>(
    alloc: Global,
    link: &mut K,
    intake: &mut Intake,
) -> Result<ReplyHead, ReplyStop>
    ensures ok { IfOk result (λ head.
        spec.GotHead (K.left link.old) (K.left link.new) intake.old intake.new head) }
    ensures err { IfErr result (λ stop.
        spec.NoHead (K.left link.old) (K.left link.new) intake.old intake.new
        (Rose (K.read_faults link.old) (K.read_faults link.new)) stop) }
    ensures later { K.read_faults link.old ≤ K.read_faults link.new }
    ensures calm { OnOk result (K.read_faults link.new ≡ K.read_faults link.old) }
    ensures aside { K.outward link.new ≡ K.outward link.old }
{
    blocks_are_bounded();
    let length = match next_block(link, intake) {
        Ok(length) => length,
        Err(stop) => return Err(stop_of(stop)),
    };
    let head = match reply_of(alloc, &intake.as_slice()[..length]) {
        Ok(Some(head)) => head,
        Ok(None) => return Err(ReplyStop::BadReply),
        Err(_) => return Err(ReplyStop::Input(ReadStop::NoMemory)),
    };
    intake.skip(length);
    Ok(head)
}

// The final head. What came after it is held.
pub fn final_head<K: Source>(
    alloc: Global,
    link: &mut K,
    intake: &mut Intake,
    is_head: bool,
) -> Result<FinalHead, ReplyStop>
    requires { intake.old ≡ [] }
    ensures ok { IfOk result (λ final.
        spec.GotFinal is_head (K.left link.old) (K.left link.new) intake.new final) }
    ensures err { IfErr result (λ stop.
        spec.NoFinal is_head (K.left link.old) (K.left link.new)
        (Rose (K.read_faults link.old) (K.read_faults link.new)) stop) }
    ensures later { K.read_faults link.old ≤ K.read_faults link.new }
    ensures calm { OnOk result (K.read_faults link.new ≡ K.read_faults link.old) }
    ensures aside { K.outward link.new ≡ K.outward link.old }
{
    blocks_are_bounded();
    blocks_stay();
    let mut more = MOST_INTERIM;
    'passing: loop {
        let head = match next_head(alloc, link, intake) {
            Ok(head) => head,
            Err(stop) => return Err(stop),
        };
        match kind_of(is_head, &head) {
            HeadKind::Final(frame) => return Ok(FinalHead { head, frame }),
            HeadKind::Refused => return Err(ReplyStop::BadReply),
            HeadKind::Interim => {}
        }
        if more == 0 {
            return Err(ReplyStop::BadReply);
        }
        more -= 1;
    }
}

// Reads once into the buffer, and adds what came to the body, which is to have so many bytes.
fn read_piece<K: Source>(
    link: &mut K,
    buf: &mut [u8],
    body: &mut Vec<u8>,
    size: usize,
) -> Result<(), ReadStop>
    requires { (0 < length buf.old) × (vec_len body.old < size) }
    ensures ok { OnOk result (
        Refilled (K.left link.old) (K.left link.new) body.old.items body.new.items) }
    ensures most { OnOk result (vec_len body.new ≤ size) }
    ensures err { IfErr result (λ stop.
        NotRead (K.left link.old) (K.left link.new) body.old.items body.new.items
        (Rose (K.read_faults link.old) (K.read_faults link.new)) stop) }
    ensures later { K.read_faults link.old ≤ K.read_faults link.new }
    ensures calm { OnOk result (K.read_faults link.new ≡ K.read_faults link.old) }
    ensures aside { K.outward link.new ≡ K.outward link.old }
{
    let room = buf.len().min(size - body.len());
    let Ok(count) = link.read(&mut buf[..room]) else {
        return Err(ReadStop::ReadFault);
    };
    if count == 0 {
        return Err(ReadStop::AtEnd);
    }
    let Ok(()) = body.extend_from_slice(&buf[..count]) else {
        return Err(ReadStop::NoMemory);
    };
    Ok(())
}

// Reads until the body has so many bytes.
fn read_on<K: Source>(
    alloc: Global,
    link: &mut K,
    body: &mut Vec<u8>,
    size: usize,
) -> Result<(), ReadStop>
    requires { vec_len body.old ≤ size }
    ensures ok { OnOk result (
        Seen (K.left link.old) (K.left link.new) body.old.items body.new.items) }
    ensures full { OnOk result (vec_len body.new ≡ size) }
    ensures err { IfErr result (λ stop.
        spec.NoBytes (K.left link.old) (K.left link.new) body.old.items size
        (Rose (K.read_faults link.old) (K.read_faults link.new)) stop) }
    ensures later { K.read_faults link.old ≤ K.read_faults link.new }
    ensures calm { OnOk result (K.read_faults link.new ≡ K.read_faults link.old) }
    ensures aside { K.outward link.new ≡ K.outward link.old }
{
    let Ok(mut buf) = vec![in alloc; 0u8; MOST_BODY_READ_BYTES] else {
        return Err(ReadStop::NoMemory);
    };
    'reading: while body.len() < size {
        match read_piece(link, buf.as_mut_slice(), body, size) {
            Ok(()) => {}
            Err(stop) => return Err(stop),
        }
    }
    Ok(())
}

// A body of so many bytes, the first of which are held. It is copied once.
pub fn whole_body<K: Source>(
    alloc: Global,
    link: &mut K,
    held: &[u8],
    size: usize,
) -> Result<Vec<u8>, ReadStop>
    ensures ok { IfOk result (λ body.
        spec.GotBytes (K.left link.old) (K.left link.new) held.now size body.items) }
    ensures err { IfErr result (λ stop.
        spec.NoBytes (K.left link.old) (K.left link.new) held.now size
        (Rose (K.read_faults link.old) (K.read_faults link.new)) stop) }
    ensures later { K.read_faults link.old ≤ K.read_faults link.new }
    ensures calm { OnOk result (K.read_faults link.new ≡ K.read_faults link.old) }
    ensures aside { K.outward link.new ≡ K.outward link.old }
{
    let Ok(mut body) = Vec::with_capacity(alloc, size) else {
        return Err(ReadStop::NoMemory);
    };
    let first = held.len().min(size);
    let Ok(()) = body.extend_from_slice(&held[..first]) else {
        return Err(ReadStop::NoMemory);
    };
    if first == size {
        return Ok(body);
    }
    match read_on(alloc, link, &mut body, size) {
        Ok(()) => Ok(body),
        Err(stop) => Err(stop),
    }
}
