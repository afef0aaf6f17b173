// Replies that are handed on as they come.
ghost use Rattle.std.specs.Prelude.{◌≡◌, ◌≤◌, ◌+◌, Bool, IfOk, OnErr, List, ℕ, true};
ghost use Rattle.audit_core.specs.Exchange.{sent_body};
ghost use Rattle.exchange_replies.specs.Statuses.{IsFinalHandling, IsFinalReached, IsStatus};
ghost use Rattle.exchange_replies.specs.Streams as spec;
ghost use Rattle.front_ports.specs.Cause.{Rose};
ghost use Rattle.stage_event.specs.Due.{is_due};
ghost use Rattle.stage_event.specs.Kept.{IsKept, IsKeptAs};
ghost use Rattle.stream_relay.specs.Keep.{Keeps};

use crate::client::{answer, is_head};
use crate::reached::Reached;
use crate::reply_tag::ReplyTag;
use crate::sent_on::SentOn;
use crate::writing::{Wrote, put_text};
use audit_core::{Handling, kept_sent};
use body_frames::Frame;
use forward_link::client_head;
use front_base::NoMemory;
use front_ports::{ByteSink, Dial, Source};
use http_edge::Request;
use http_head::{ReplyHead, blocks_are_bounded, blocks_stay, push_reply};
use stage_event::{Kept, Show, kept};
use std::alloc::Global;
use stream_relay::{Keep, Relayed, bodies_are_relayed_whole, bodies_end_one_way, relay};

/// How a reply ended, and what was kept of its body.
#[derive(Debug, Drop)]
pub struct ReplyEnd {
    /// Where it isn't `Done`, nothing more may be written to the client.
    pub end: Relayed,
    pub kept: Kept,
}

// The head of a reply that streams, as the client gets it.
#[tactic(auto, unfolding(crate::specs::Streams::stream_head))]
fn stream_head(
    alloc: Global,
    request: &Request,
    tag: ReplyTag,
    head: &ReplyHead,
    frame: &Frame,
) -> Result<Vec<u8>, NoMemory>
    requires { IsStatus head.now.status }
    ensures { IfOk result (λ text. text.items ≡ spec.stream_head request.now tag head.now frame.now) }
{
    let old_client = request.head.minor == 0;
    let client = client_head(alloc, head, tag.id, frame, old_client, tag.closing)?;
    let mut out = Vec::new(alloc);
    push_reply(&mut out, &client)?;
    Ok(out)
}

// Writes a head, and hands its body on.
fn hand_on<K: Source, O: ByteSink>(
    alloc: Global,
    link: &mut K,
    out: &mut O,
    request: &Request,
    tag: ReplyTag,
    head: &ReplyHead,
    frame: Frame,
    rest: &[u8],
    keep: &mut Keep,
) -> Result<Relayed, NoMemory>
    requires { IsStatus head.now.status }
    ensures ok { IfOk result (spec.HandedOn request.now tag head.now frame rest.now (K.left link.old) (K.left link.new)
        (record { written = O.written out.old; keep = keep.old })
        (record { written = O.written out.new; keep = keep.new })
        (Rose (K.read_faults link.old) (K.read_faults link.new))
        (Rose (O.write_faults out.old) (O.write_faults out.new))) }
    ensures err { OnErr result (spec.HandedPart request.now tag head.now frame rest.now (K.left link.old) (K.left link.new)
        (O.written out.old) (O.written out.new)) }
    ensures read_later { K.read_faults link.old ≤ K.read_faults link.new }
    ensures later { O.write_faults out.old ≤ O.write_faults out.new }
    ensures aside { K.outward link.new ≡ K.outward link.old }
    ensures inward { O.inward out.new ≡ O.inward out.old }
{
    bodies_end_one_way();
    bodies_are_relayed_whole();
    let text = stream_head(alloc, request, tag, head, &frame)?;
    match put_text(out, text.as_slice()) {
        Wrote::Whole => {}
        Wrote::Cut => return Ok(Relayed::WriteFault),
    }
    let old_client = request.head.minor == 0;
    relay(alloc, link, frame, rest, out, old_client, keep)
}

// What is kept of a whole body that was asked for.
fn kept_whole(alloc: Global, request: &Request, omit: bool, keep: &Keep) -> Result<Kept, NoMemory>
    ensures { (body : List ℕ) → Keeps true body keep.now
        → IfOk result (IsKept omit (sent_body request.now.head.method body)) }
{
    if is_head(request) {
        return kept(alloc, b"".as_slice(), omit);
    }
    match keep.body() {
        Some(bytes) => kept(alloc, bytes, omit),
        None => Ok(Kept::Over),
    }
}

// What is kept of a body that came whole.
fn kept_done(alloc: Global, request: &Request, show: Show, keep: &Keep) -> Result<Kept, NoMemory>
    ensures { (body : List ℕ) → Keeps (is_due show) body keep.now
        → IfOk result (IsKeptAs show (sent_body request.now.head.method body)) }
{
    match show {
        Show::Nothing => Ok(Kept::NotAsked),
        Show::Whole => kept_whole(alloc, request, false, keep),
        Show::Pruned => kept_whole(alloc, request, true, keep),
    }
}

// What is kept of a body whose end never came.
fn cut_off(show: Show) -> Kept
    ensures { spec.IsCutOff show result }
{
    match show {
        Show::Nothing => Kept::NotAsked,
        Show::Whole | Show::Pruned => Kept::CutOff,
    }
}

// What is kept of a body that ended so.
fn kept_of(
    alloc: Global,
    request: &Request,
    show: Show,
    end: Relayed,
    keep: &Keep,
) -> Result<Kept, NoMemory>
    ensures { (body : List ℕ) → (end ≡ Relayed.Done → Keeps (is_due show) body keep.now)
        → IfOk result (spec.IsKeptOf request.now show end body) }
{
    match end {
        Relayed::Done => kept_done(alloc, request, show, keep),
        Relayed::BackendCut | Relayed::StreamSpent | Relayed::WriteFault => Ok(cut_off(show)),
    }
}

// Hands a reply on, and its link back.
fn stream<O: ByteSink, D: Dial>(
    alloc: Global,
    dial: &mut D,
    out: &mut O,
    request: &Request,
    tag: ReplyTag,
    head: &ReplyHead,
    frame: Frame,
    rest: &[u8],
    mut link: D::K,
    show: Show,
) -> Result<ReplyEnd, NoMemory>
    requires { IsStatus head.now.status }
    ensures ok { IfOk result (spec.Streamed request.now tag head.now frame rest.now show
        (record {
          left = D.K.left link;
          written = D.K.written link;
          number = D.K.number link;
          faults = D.K.read_faults link + D.K.write_faults link;
        })
        (record { calls = D.calls dial.old; faults = D.faults dial.old; link_faults = D.link_faults dial.old })
        (record { calls = D.calls dial.new; faults = D.faults dial.new; link_faults = D.link_faults dial.new })
        (O.written out.old) (O.written out.new) (Rose (O.write_faults out.old) (O.write_faults out.new))) }
    ensures err { OnErr result (spec.StreamedPart request.now tag head.now frame rest.now
        (record {
          left = D.K.left link;
          written = D.K.written link;
          number = D.K.number link;
          faults = D.K.read_faults link + D.K.write_faults link;
        })
        (record { calls = D.calls dial.old; faults = D.faults dial.old; link_faults = D.link_faults dial.old })
        (record { calls = D.calls dial.new; faults = D.faults dial.new; link_faults = D.link_faults dial.new })
        (O.written out.old) (O.written out.new)) }
    ensures faults { D.faults dial.new ≡ D.faults dial.old }
    ensures link_later { D.link_faults dial.old ≤ D.link_faults dial.new }
    ensures later { O.write_faults out.old ≤ O.write_faults out.new }
    ensures aside { O.inward out.new ≡ O.inward out.old }
{
    blocks_stay();
    blocks_are_bounded();
    let mut keep = Keep::new(alloc, show.is_due());
    let handed = hand_on(
        alloc, &mut link, out, request, tag, head, frame, rest, &mut keep,
    );
    dial.done(link);
    let end = handed?;
    let kept = kept_of(alloc, request, show, end, &keep)?;
    Ok(ReplyEnd { end, kept })
}

// Writes a reply that came at once.
fn reply_once<O: ByteSink>(
    alloc: Global,
    out: &mut O,
    request: &Request,
    tag: ReplyTag,
    handling: &Handling,
    reached: &Reached,
    show: Show,
) -> Result<ReplyEnd, NoMemory>
    requires handling { IsFinalHandling handling.now }
    requires reached { IsFinalReached reached.now }
    ensures ok { IfOk result (spec.RepliedOnce request.now tag handling.now show reached.now
        (O.written out.old) (O.written out.new) (Rose (O.write_faults out.old) (O.write_faults out.new))) }
    ensures err { OnErr result (O.written out.new ≡ O.written out.old) }
    ensures later { O.write_faults out.old ≤ O.write_faults out.new }
    ensures aside { O.inward out.new ≡ O.inward out.old }
{
    let method = request.head.method.as_str();
    let kept = kept_sent(
        alloc,
        show,
        method,
        handling,
        reached.note(),
        reached.body(),
    )?;
    let end = match answer(alloc, out, request, tag, handling, reached)? {
        Wrote::Whole => Relayed::Done,
        Wrote::Cut => Relayed::WriteFault,
    };
    Ok(ReplyEnd { end, kept })
}

/// Writes the reply with that tag to a request, which was handled so and sent on to that, and hands its link back, also
/// where memory runs out. Events show that of the reply's body. A reply that streams is written as it comes: to a
/// client of version 1.1 in chunks where its head says no length. After an end other than `Done` nothing more may be written.
pub fn reply_to<O: ByteSink, D: Dial>(
    alloc: Global,
    dial: &mut D,
    out: &mut O,
    request: &Request,
    tag: ReplyTag,
    handling: &Handling,
    sent: SentOn<D::K>,
    show: Show,
) -> Result<ReplyEnd, NoMemory>
    requires handling { IsFinalHandling handling.now }
    requires sent { spec.IsFinalSent sent }
    ensures ok { IfOk result (spec.RepliedTo (λ link. record {
      left = D.K.left link;
      written = D.K.written link;
      number = D.K.number link;
      faults = D.K.read_faults link + D.K.write_faults link;
    }) request.now tag handling.now show sent
        (record { calls = D.calls dial.old; faults = D.faults dial.old; link_faults = D.link_faults dial.old })
        (record { calls = D.calls dial.new; faults = D.faults dial.new; link_faults = D.link_faults dial.new })
        (O.written out.old) (O.written out.new) (Rose (O.write_faults out.old) (O.write_faults out.new))) }
    ensures err { OnErr result (spec.RepliedPart (λ link. record {
      left = D.K.left link;
      written = D.K.written link;
      number = D.K.number link;
      faults = D.K.read_faults link + D.K.write_faults link;
    }) request.now tag handling.now sent
        (record { calls = D.calls dial.old; faults = D.faults dial.old; link_faults = D.link_faults dial.old })
        (record { calls = D.calls dial.new; faults = D.faults dial.new; link_faults = D.link_faults dial.new })
        (O.written out.old) (O.written out.new)) }
    ensures link_later { D.link_faults dial.old ≤ D.link_faults dial.new }
    ensures later { O.write_faults out.old ≤ O.write_faults out.new }
    ensures aside { O.inward out.new ≡ O.inward out.old }
{
    match sent {
        SentOn::Once(reached) => reply_once(alloc, out, request, tag, handling, &reached, show),
        SentOn::Open {
            head,
            frame,
            rest,
            link,
        } => stream(
            alloc,
            dial,
            out,
            request,
            tag,
            &head,
            frame,
            rest.as_slice(),
            link,
            show,
        ),
    }
}

/// Hands the link back of a reply that is not written.
pub fn give_back<D: Dial>(dial: &mut D, sent: SentOn<D::K>)
    ensures back { (is_head : Bool) → spec.GivenBack (λ link. record {
      left = D.K.left link;
      written = D.K.written link;
      number = D.K.number link;
      faults = D.K.read_faults link + D.K.write_faults link;
    }) is_head sent
        (record { calls = D.calls dial.old; faults = D.faults dial.old; link_faults = D.link_faults dial.old })
        (record { calls = D.calls dial.new; faults = D.faults dial.new; link_faults = D.link_faults dial.new }) }
    ensures link_later { D.link_faults dial.old ≤ D.link_faults dial.new }
{
    blocks_stay();
    blocks_are_bounded();
    match sent {
        SentOn::Once(_reached) => {}
        SentOn::Open {
            head: _head,
            frame: _frame,
            rest: _rest,
            link,
        } => dial.done(link),
    }
}
