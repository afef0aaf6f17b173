// What is said over a link: the request, and the reply or its head.
ghost use Rattle.std.specs.Prelude.{◌≡◌, ◌≤◌, ◌<◌, ◌+◌, ◌++◌, [], true, IfOk, IfSome, OnOk, OnErr};
ghost use Rattle.std.specs.Io.KnownBytes.{Appends};
ghost use Rattle.front_ports.specs.Cause.{Rose};
ghost use Rattle.front_ports.specs.Written.{AppendsFront};
ghost use Rattle.forward_link.specs.Exchange as spec;

use crate::kind::whole_size;
use crate::reply::{ReplyStop, final_head, whole_body};
use body_frames::Frame;
use front_base::{Bytes, NoMemory};
use front_ports::{Link, PortFault, Source, write_all};
use http_head::ReplyHead;
use std::alloc::{AllocError, Global};
use wire_intake::{Intake, ReadStop};

// What comes of a link that was opened.
#[derive(Drop)]
pub enum Talk {
    Whole {
        head: ReplyHead,
        body: Bytes,
    },
    Streamed {
        head: ReplyHead,
        frame: Frame,
        rest: Bytes,
    },
    BadReply,
    Cut,
    LinkFault,
}

// A body of at most so many bytes is written together with its head.
const MOST_JOINED_BYTES: usize = 16_384;

// Writes the head, and then the body.
fn send_apart<K: Link>(link: &mut K, head: &[u8], body: &[u8]) -> Result<(), PortFault>
    ensures ok { OnOk result (Appends (K.written link.old) (K.written link.new) (head.now ++ body.now)) }
    ensures err { OnErr result (AppendsFront (K.written link.old) (K.written link.new) (head.now ++ body.now)) }
    ensures fault { OnErr result (0 < K.write_faults link.new) }
    ensures calm { OnOk result (K.write_faults link.new ≡ K.write_faults link.old) }
    ensures aside { K.inward link.new ≡ K.inward link.old }
{
    match write_all(link, head) {
        Ok(()) => {}
        Err(fault) => return Err(fault),
    }
    match write_all(link, body) {
        Ok(()) => Ok(()),
        Err(fault) => Err(fault),
    }
}

fn joined(alloc: Global, head: &[u8], body: &[u8]) -> Result<Vec<u8>, AllocError>
    ensures { IfOk result (λ text. text.items ≡ head.now ++ body.now) }
{
    let mut text = Vec::with_capacity(alloc, head.len().saturating_add(body.len()))?;
    text.extend_from_slice(head)?;
    text.extend_from_slice(body)?;
    Ok(text)
}

// The head and the body as one text, where there is a body that isn't large, and memory for both.
fn text_of(alloc: Global, head: &[u8], body: &[u8]) -> Option<Vec<u8>>
    ensures { IfSome result (λ text. text.items ≡ head.now ++ body.now) }
{
    if body.is_empty() || body.len() > MOST_JOINED_BYTES {
        return None;
    }
    joined(alloc, head, body).ok()
}

// Writes the head and the body, in one call where they are not large.
fn send<K: Link>(alloc: Global, link: &mut K, head: &[u8], body: &[u8]) -> Result<(), PortFault>
    ensures ok { OnOk result (Appends (K.written link.old) (K.written link.new) (head.now ++ body.now)) }
    ensures err { OnErr result (AppendsFront (K.written link.old) (K.written link.new) (head.now ++ body.now)) }
    ensures fault { OnErr result (0 < K.write_faults link.new) }
    ensures calm { OnOk result (K.write_faults link.new ≡ K.write_faults link.old) }
    ensures aside { K.inward link.new ≡ K.inward link.old }
{
    match text_of(alloc, head, body) {
        Some(text) => write_all(link, text.as_slice()),
        None => send_apart(link, head, body),
    }
}

fn stopped(stop: ReplyStop) -> Result<Talk, NoMemory>
    ensures ok { IfOk result (spec.StopsAs stop) }
    ensures err { OnErr result (stop ≡ ReplyStop.Input ReadStop.NoMemory) }
{
    match stop {
        ReplyStop::BadReply => Ok(Talk::BadReply),
        ReplyStop::Input(ReadStop::AtEnd) => Ok(Talk::Cut),
        ReplyStop::Input(ReadStop::ReadFault) => Ok(Talk::LinkFault),
        ReplyStop::Input(ReadStop::NoMemory) => Err(NoMemory),
    }
}

fn held_bytes(alloc: Global, intake: &Intake) -> Result<Bytes, NoMemory>
    ensures { IfOk result (λ bytes. bytes ≡ intake.now) }
{
    Ok(Bytes::new(intake.as_slice().to_vec(alloc)?))
}

// Reads the reply, or its head where it is streamed, into an intake that holds nothing yet.
fn read_into<K: Source>(
    alloc: Global,
    link: &mut K,
    intake: &mut Intake,
    is_head: bool,
    streamed: bool,
) -> Result<Talk, NoMemory>
    requires { intake.old ≡ [] }
    ensures ok { IfOk result (λ talk.
        spec.ReadsBy is_head streamed (K.left link.old) (K.left link.new)
        (Rose (K.read_faults link.old) (K.read_faults link.new)) (spec.said_by (K.left link.new) talk)) }
    ensures status { IfOk result spec.TalksFinal }
    ensures calm { IfOk result (λ talk.
        spec.is_reply talk ≡ true → K.read_faults link.new ≡ K.read_faults link.old) }
    ensures aside { K.outward link.new ≡ K.outward link.old }
{
    let found = match final_head(alloc, link, intake, is_head) {
        Ok(found) => found,
        Err(stop) => return stopped(stop),
    };
    let size = match whole_size(streamed, found.frame) {
        Some(size) => size,
        None => {
            let rest = held_bytes(alloc, intake)?;
            return Ok(Talk::Streamed {
                head: found.head,
                frame: found.frame,
                rest,
            });
        }
    };
    match whole_body(alloc, link, intake.as_slice(), size) {
        Ok(body) => Ok(Talk::Whole {
            head: found.head,
            body: Bytes::new(body),
        }),
        Err(stop) => stopped(ReplyStop::Input(stop)),
    }
}

// Reads the reply, or its head where it is streamed.
fn read_reply<K: Source>(
    alloc: Global,
    link: &mut K,
    is_head: bool,
    streamed: bool,
) -> Result<Talk, NoMemory>
    ensures ok { IfOk result (λ talk.
        spec.ReadsBy is_head streamed (K.left link.old) (K.left link.new)
        (Rose (K.read_faults link.old) (K.read_faults link.new)) (spec.said_by (K.left link.new) talk)) }
    ensures status { IfOk result spec.TalksFinal }
    ensures calm { IfOk result (λ talk.
        spec.is_reply talk ≡ true → K.read_faults link.new ≡ K.read_faults link.old) }
    ensures aside { K.outward link.new ≡ K.outward link.old }
{
    let mut intake = Intake::new(alloc)?;
    read_into(alloc, link, &mut intake, is_head, streamed)
}

// Sends the request and reads the reply, or its head where it is streamed.
pub fn talk_over<K: Link>(
    alloc: Global,
    link: &mut K,
    head: &[u8],
    body: &[u8],
    is_head: bool,
    streamed: bool,
) -> Result<Talk, NoMemory>
    ensures ok { IfOk result (λ talk.
        spec.TalksBy is_head streamed (K.left link.old) (K.left link.new) (K.written link.old) (K.written link.new)
        (head.now ++ body.now) (0 < K.read_faults link.new + K.write_faults link.new)
        (spec.said_by (K.left link.new) talk)) }
    ensures err { OnErr result (AppendsFront (K.written link.old) (K.written link.new) (head.now ++ body.now)) }
    ensures status { IfOk result spec.TalksFinal }
    ensures calm { IfOk result (λ talk.
        spec.is_reply talk ≡ true → (K.read_faults link.new ≡ K.read_faults link.old)
        × (K.write_faults link.new ≡ K.write_faults link.old)) }
    ensures number { K.number link.new ≡ K.number link.old }
{
    match send(alloc, link, head, body) {
        Ok(()) => {}
        Err(_) => return Ok(Talk::LinkFault),
    }
    read_reply(alloc, link, is_head, streamed)
}
