// One whole reply, fetched.
ghost use Rattle.std.specs.Prelude.{◌≡◌, ◌≤◌, ◌+◌, List, ℕ, true, IfOk, OnErr};
ghost use Rattle.service_calls.specs.Calls.{Due, dial_state, link_state};
ghost use Rattle.service_calls.specs.Calls as calls;
ghost use Rattle.service_calls.specs.Fetched as spec;
ghost use Rattle.stream_relay.specs.Keep.{Keeps};

use crate::reply::Fetched;
use crate::void::Void;
use body_frames::Frame;
use forward_link::{LinkAnswer, exchange};
use front_base::{Address, Bytes, NoMemory};
use front_ports::Dial;
use http_head::{ReplyHead, blocks_are_bounded, blocks_stay};
use std::alloc::Global;
use stream_relay::{Keep, Relayed, bodies_end_one_way, relay};

// What is answered of a body that was kept.
fn kept(alloc: Global, status: u16, keep: &Keep) -> Result<Fetched, NoMemory>
    ensures { (body : List ℕ) → Keeps true body keep.now → IfOk result (spec.IsWhole status body) }
{
    match keep.body() {
        Some(body) => Ok(Fetched::Reply {
            status,
            body: Bytes::new(body.to_vec(alloc)?),
        }),
        None => Ok(Fetched::TooLong { status }),
    }
}

// What is answered of a body that ended so.
fn ended(alloc: Global, status: u16, end: Relayed, keep: &Keep) -> Result<Fetched, NoMemory>
    ensures done { end ≡ Relayed.Done → (body : List ℕ) → Keeps true body keep.now → IfOk result (spec.IsWhole status body) }
    ensures cut { (end ≡ Relayed.Done → ⊥) → IfOk result (λ got. got ≡ Fetched.NoReply) }
{
    match end {
        Relayed::Done => kept(alloc, status, keep),
        Relayed::BackendCut | Relayed::StreamSpent | Relayed::WriteFault => Ok(Fetched::NoReply),
    }
}

// Reads a reply that streams to its end, and hands its link back.
fn streamed<D: Dial>(
    alloc: Global,
    dial: &mut D,
    head: &ReplyHead,
    frame: Frame,
    rest: &[u8],
    mut link: D::K,
) -> Result<Fetched, NoMemory>
    ensures ok { IfOk result (spec.Streams head.now frame rest.now
        (link_state (D.K.left link) (D.K.written link) (D.K.number link) (D.K.read_faults link + D.K.write_faults link))
        (dial_state (D.calls dial.old) (D.faults dial.old) (D.link_faults dial.old))
        (dial_state (D.calls dial.new) (D.faults dial.new) (D.link_faults dial.new))) }
    ensures err { OnErr result (spec.StreamsPart head.now frame rest.now
        (link_state (D.K.left link) (D.K.written link) (D.K.number link) (D.K.read_faults link + D.K.write_faults link))
        (dial_state (D.calls dial.old) (D.faults dial.old) (D.link_faults dial.old))
        (dial_state (D.calls dial.new) (D.faults dial.new) (D.link_faults dial.new))) }
    ensures faults { D.faults dial.new ≡ D.faults dial.old }
    ensures link_later { D.link_faults dial.old ≤ D.link_faults dial.new }
{
    blocks_stay();
    blocks_are_bounded();
    bodies_end_one_way();
    let mut keep = Keep::new(alloc, true);
    // An old client gets the bare bytes.
    let relayed = relay(alloc, &mut link, frame, rest, &mut Void, true, &mut keep);
    dial.done(link);
    let end = relayed?;
    ended(alloc, head.status, end, &keep)
}

// What is fetched by what was answered.
fn fetched_by<D: Dial>(
    alloc: Global,
    dial: &mut D,
    answer: LinkAnswer<D::K>,
) -> Result<Fetched, NoMemory>
    ensures ok { (due : Due) (m : calls.DialState) → m.link_faults ≤ D.link_faults dial.old
        → spec.AnswersBy (λ link. link_state (D.K.left link) (D.K.written link) (D.K.number link) (D.K.read_faults link + D.K.write_faults link))
        due m (dial_state (D.calls dial.old) (D.faults dial.old) (D.link_faults dial.old)) answer
        → IfOk result (spec.Fetches due m (dial_state (D.calls dial.new) (D.faults dial.new) (D.link_faults dial.new))) }
    ensures err { (due : Due) (m : calls.DialState)
        → spec.AnswersBy (λ link. link_state (D.K.left link) (D.K.written link) (D.K.number link) (D.K.read_faults link + D.K.write_faults link))
        due m (dial_state (D.calls dial.old) (D.faults dial.old) (D.link_faults dial.old)) answer
        → OnErr result (spec.StopsFetching due m (dial_state (D.calls dial.new) (D.faults dial.new) (D.link_faults dial.new))) }
    ensures later { (D.faults dial.old ≤ D.faults dial.new) × (D.link_faults dial.old ≤ D.link_faults dial.new) }
{
    match answer {
        LinkAnswer::Whole { head, body } => Ok(Fetched::Reply {
            status: head.status,
            body,
        }),
        LinkAnswer::Streamed {
            head,
            frame,
            rest,
            link,
        } => streamed(alloc, dial, &head, frame, rest.as_slice(), link),
        LinkAnswer::BadReply | LinkAnswer::Cut => Ok(Fetched::NoReply),
        LinkAnswer::DialFailed => Ok(Fetched::NotDialed),
        LinkAnswer::LinkFault => Ok(Fetched::LinkFault),
    }
}

/// Sends a request without a body over a link of its own, and reads the whole reply. It makes one call. A body of more than
/// `stream_relay::MOST_KEPT_BYTES` bytes is read to its end, and not kept.
pub fn fetch_reply<D: Dial>(
    alloc: Global,
    dial: &mut D,
    to: Address,
    request: &[u8],
) -> Result<Fetched, NoMemory>
    ensures ok { IfOk result (spec.Fetches (record { to = to; text = request.now })
        (dial_state (D.calls dial.old) (D.faults dial.old) (D.link_faults dial.old))
        (dial_state (D.calls dial.new) (D.faults dial.new) (D.link_faults dial.new))) }
    ensures err { OnErr result (spec.StopsFetching (record { to = to; text = request.now })
        (dial_state (D.calls dial.old) (D.faults dial.old) (D.link_faults dial.old))
        (dial_state (D.calls dial.new) (D.faults dial.new) (D.link_faults dial.new))) }
    ensures later { (D.faults dial.old ≤ D.faults dial.new) × (D.link_faults dial.old ≤ D.link_faults dial.new) }
{
    match exchange(alloc, dial, to, request, b"", false, false) {
        Ok(answer) => fetched_by(alloc, dial, answer),
        Err(NoMemory) => Err(NoMemory),
    }
}
