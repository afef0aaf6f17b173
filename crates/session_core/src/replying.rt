// A request that was handled: its link, its reply, and the events of its reply.
ghost use Rattle.std.specs.Prelude.{◌≡◌, ◌≤◌, IfOk, OnOk, OnErr};
ghost use Rattle.event_offers.specs.Lanes.{lanes_state};
ghost use Rattle.exchange_replies.specs.Sent.{is_head, StopsSending};
ghost use Rattle.exchange_replies.specs.Statuses.{IsFinalHandling};
ghost use Rattle.exchange_replies.specs.Streams.{Forwards, IsFinalSent, RepliedPart, RepliedTo};
ghost use Rattle.front_base.specs.Info.{is_long_running};
ghost use Rattle.front_ports.specs.Cause.{Rose};
ghost use Rattle.front_ports.specs.Wishes.{GivesWish};
ghost use Rattle.session_core.specs.Bays.{CanOffer, dial_state, link_state, recording};
ghost use Rattle.session_core.specs.Closing.{IsAside, MayWish};
ghost use Rattle.session_core.specs.Parts as spec;
ghost use Rattle.session_core.specs.Steps.{tag_in, work_state};

use crate::work::Work;
use audit_core::{Handling, Settings};
use event_offers::{Lanes, lanes_stay, later_stages_refuse_nothing, offers_join};
use exchange_replies::{ReplyEnd, SentOn, forward, give_back, reply_to};
use front_base::{NoMemory, Stage};
use front_ports::{ByteSink, Clock, Conn, Dial};
use http_edge::Request;
use stage_event::{Show, reply_show, stages_hide};
use std::alloc::Global;
use stream_relay::Relayed;
use truncate_backend::Lane;

// Offers the event of its reply's start, if it runs long.
fn start<A: Lane, B: Lane, K: Clock>(
    alloc: Global,
    settings: &Settings,
    lanes: &mut Lanes<A, B>,
    clock: &mut K,
    work: &mut Work,
) -> Result<(), NoMemory>
    requires offer { CanOffer settings.now (lanes_state A.Lane B.Lane lanes.old) 1 }
    ensures ok { OnOk result (spec.Started settings.now (recording A.Lane B.Lane K.Clock lanes.old clock.old) (work_state work.old)
        (recording A.Lane B.Lane K.Clock lanes.new clock.new) (work_state work.new)) }
    ensures err { OnErr result (spec.StartHalts (recording A.Lane B.Lane K.Clock lanes.old clock.old) (work_state work.old)
        (recording A.Lane B.Lane K.Clock lanes.new clock.new) (work_state work.new)) }
{
    if !work.facts.info.is_long_running() {
        return Ok(());
    }
    work.facts.started = clock.now();
    work.offer(alloc, settings, Stage::ResponseStarted, lanes)
}

// Offers the event of its complete reply.
fn complete<A: Lane, B: Lane, K: Clock>(
    alloc: Global,
    settings: &Settings,
    lanes: &mut Lanes<A, B>,
    clock: &mut K,
    work: &mut Work,
) -> Result<(), NoMemory>
    requires offer { CanOffer settings.now (lanes_state A.Lane B.Lane lanes.old) 1 }
    ensures ok { OnOk result (spec.Completed settings.now (recording A.Lane B.Lane K.Clock lanes.old clock.old) (work_state work.old)
        (recording A.Lane B.Lane K.Clock lanes.new clock.new) (work_state work.new)) }
    ensures err { OnErr result (spec.CompleteHalts (recording A.Lane B.Lane K.Clock lanes.old clock.old) (work_state work.old)
        (recording A.Lane B.Lane K.Clock lanes.new clock.new) (work_state work.new)) }
{
    work.facts.complete = clock.now();
    work.offer(alloc, settings, Stage::ResponseComplete, lanes)
}

// Sends it on where it is to be sent on, as the user that it acts as.
fn send<D: Dial>(
    alloc: Global,
    dial: &mut D,
    request: &Request,
    handling: &Handling,
    work: &Work,
) -> Result<SentOn<D::K>, NoMemory>
    ensures ok { IfOk result (Forwards (λ link. link_state D.K.Source D.K.ByteSink D.K.Link.own link) (is_head request.now)
        (is_long_running work.now.facts.info) (spec.sending request.now handling.now (work_state work.now))
        (dial_state D.Dial dial.old) (dial_state D.Dial dial.new)) }
    ensures err { OnErr result (StopsSending (spec.sending request.now handling.now (work_state work.now))
        (dial_state D.Dial dial.old) (dial_state D.Dial dial.new)) }
    ensures status { IfOk result IsFinalSent }
    ensures later { (D.faults dial.old ≤ D.faults dial.new) × (D.link_faults dial.old ≤ D.link_faults dial.new) }
{
    let user = work.facts.effective_user();
    let long = work.facts.info.is_long_running();
    forward(alloc, dial, request, user, work.facts.id, handling, long)
}

// Writes its reply, once the event of its start was offered: no byte of it goes out before.
fn write_reply<O: ByteSink, D: Dial, A: Lane, B: Lane>(
    alloc: Global,
    settings: &Settings,
    lanes: &Lanes<A, B>,
    dial: &mut D,
    out: &mut O,
    request: &Request,
    handling: &Handling,
    sent: SentOn<D::K>,
    show: Show,
    work: &Work,
) -> Result<ReplyEnd, NoMemory>
    requires started { spec.StartIsOffered settings.now (lanes_state A.Lane B.Lane lanes.now) (work_state work.now) }
    requires handling { IsFinalHandling handling.now }
    requires sent { IsFinalSent sent }
    ensures ok { IfOk result (RepliedTo (λ link. link_state D.K.Source D.K.ByteSink D.K.Link.own link) request.now
        (tag_in request.now (work_state work.now)) handling.now show sent (dial_state D.Dial dial.old) (dial_state D.Dial dial.new)
        (O.written out.old) (O.written out.new) (Rose (O.write_faults out.old) (O.write_faults out.new))) }
    ensures err { OnErr result (RepliedPart (λ link. link_state D.K.Source D.K.ByteSink D.K.Link.own link) request.now
        (tag_in request.now (work_state work.now)) handling.now sent (dial_state D.Dial dial.old) (dial_state D.Dial dial.new)
        (O.written out.old) (O.written out.new)) }
    ensures later { O.write_faults out.old ≤ O.write_faults out.new }
    ensures aside { O.inward out.new ≡ O.inward out.old }
{
    reply_to(
        alloc,
        dial,
        out,
        request,
        work.tag(request),
        handling,
        sent,
        show,
    )
}

// Writes its reply, between the events of its start and of its end.
fn reply<O: ByteSink, D: Dial, A: Lane, B: Lane, K: Clock>(
    alloc: Global,
    settings: &Settings,
    dial: &mut D,
    lanes: &mut Lanes<A, B>,
    clock: &mut K,
    out: &mut O,
    request: &Request,
    handling: &Handling,
    sent: SentOn<D::K>,
    work: &mut Work,
) -> Result<Relayed, NoMemory>
    requires offer { CanOffer settings.now (lanes_state A.Lane B.Lane lanes.old) 2 }
    requires handling { IsFinalHandling handling.now }
    requires sent { IsFinalSent sent }
    ensures ok { IfOk result (spec.Replied (λ link. link_state D.K.Source D.K.ByteSink D.K.Link.own link) settings.now request.now
        handling.now sent (dial_state D.Dial dial.old) (dial_state D.Dial dial.new)
        (recording A.Lane B.Lane K.Clock lanes.old clock.old) (work_state work.old)
        (recording A.Lane B.Lane K.Clock lanes.new clock.new) (work_state work.new)
        (O.written out.old) (O.written out.new) (Rose (O.write_faults out.old) (O.write_faults out.new))) }
    ensures err { OnErr result (spec.ReplyHalts (λ link. link_state D.K.Source D.K.ByteSink D.K.Link.own link) settings.now request.now
        handling.now sent (dial_state D.Dial dial.old) (dial_state D.Dial dial.new)
        (recording A.Lane B.Lane K.Clock lanes.old clock.old) (work_state work.old)
        (recording A.Lane B.Lane K.Clock lanes.new clock.new) (work_state work.new)
        (O.written out.old) (O.written out.new) (Rose (O.write_faults out.old) (O.write_faults out.new))) }
    ensures later { O.write_faults out.old ≤ O.write_faults out.new }
    ensures aside { O.inward out.new ≡ O.inward out.old }
{
    stages_hide();
    offers_join();
    lanes_stay();
    later_stages_refuse_nothing();
    let show = reply_show(
        work.decision.level,
        work.decision.omit_managed,
        &work.facts.info,
    );
    match start(alloc, settings, lanes, clock, work) {
        Ok(()) => {}
        Err(NoMemory) => {
            give_back(dial, sent);
            return Err(NoMemory);
        }
    }
    let replied = write_reply(
        alloc, settings, lanes, dial, out, request, handling, sent, show, work,
    )?;
    work.set_reply(replied.kept);
    complete(alloc, settings, lanes, clock, work)?;
    Ok(replied.end)
}

/// Sends it on where it is to be sent on, asks the connection whether it wishes to end, and writes the reply between the
/// events of its start and of its end.
pub fn answer<C: Conn, D: Dial, A: Lane, B: Lane, K: Clock>(
    alloc: Global,
    settings: &Settings,
    dial: &mut D,
    lanes: &mut Lanes<A, B>,
    clock: &mut K,
    conn: &mut C,
    request: &Request,
    handling: &Handling,
    work: &mut Work,
) -> Result<Relayed, NoMemory>
    requires offer { CanOffer settings.now (lanes_state A.Lane B.Lane lanes.old) 2 }
    requires handling { IsFinalHandling handling.now }
    ensures ok { IfOk result (spec.AnsweredTo settings.now request.now handling.now
        (dial_state D.Dial dial.old) (dial_state D.Dial dial.new)
        (recording A.Lane B.Lane K.Clock lanes.old clock.old) (work_state work.old)
        (recording A.Lane B.Lane K.Clock lanes.new clock.new) (work_state work.new)
        (C.written conn.old) (C.written conn.new) (Rose (C.write_faults conn.old) (C.write_faults conn.new))) }
    ensures err { OnErr result (spec.AnswerHalts settings.now request.now handling.now
        (dial_state D.Dial dial.old) (dial_state D.Dial dial.new)
        (recording A.Lane B.Lane K.Clock lanes.old clock.old) (work_state work.old)
        (recording A.Lane B.Lane K.Clock lanes.new clock.new) (work_state work.new)
        (C.written conn.old) (C.written conn.new) (Rose (C.write_faults conn.old) (C.write_faults conn.new))) }
    ensures wish { OnOk result (GivesWish (C.wishes conn.old) (C.wishes conn.new) work.new.wished) }
    ensures may_wish { OnErr result (MayWish (C.wishes conn.old) (C.wishes conn.new) work.old.wished work.new.wished) }
    ensures later { C.write_faults conn.old ≤ C.write_faults conn.new }
    ensures aside { IsAside (C.from conn.old) (C.from conn.new) (C.left conn.old) (C.left conn.new)
        (C.read_faults conn.old) (C.read_faults conn.new) }
{
    match send(alloc, dial, request, handling, work) {
        Ok(sent) => {
            let wished = conn.wishes_to_end();
            work.set_link(handling, sent.note(), wished);
            reply(
                alloc, settings, dial, lanes, clock, conn, request, handling, sent, work,
            )
        }
        Err(NoMemory) => Err(NoMemory),
    }
}
