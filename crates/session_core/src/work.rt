// A request while it is served.
ghost use Rattle.std.specs.Prelude.{◌≡◌, ◌≢◌, [], OnOk, OnErr};
ghost use Rattle.event_offers.specs.Lanes.{lanes_state};
ghost use Rattle.fact_ranges.specs.InRange.{AreInRange};
ghost use Rattle.session_core.specs.Bays.{CanOffer};
ghost use Rattle.session_core.specs.Closing.{closes};
ghost use Rattle.session_core.specs.Exchange.{errand_after, unrouted};
ghost use Rattle.session_core.specs.Parts.{StageOffered};
ghost use Rattle.session_core.specs.Steps as spec;

use crate::exchange::Exchange;
use audit_core::{
    Errand, Handling, LinkNote, OfferNote, Offers, Routed, Settings, has_refused, status_of,
};
use event_offers::{Lanes, offer_stage};
use exchange_replies::ReplyTag;
use fact_ranges::facts_are_in_range;
use front_base::{NoMemory, Stage};
use http_edge::{Request, asks};
use policy_rules::Decision;
use stage_event::{Facts, Kept};
use std::alloc::Global;
use truncate_backend::Lane;

/// What is known of a request, what became of its link, and what became of its events.
#[derive(Drop)]
pub struct Work {
    pub decision: Decision,
    pub facts: Facts,
    pub link: LinkNote,
    pub notes: Vec<OfferNote>,
    /// Whether the connection wished to end after its reply.
    pub wished: bool,
}

impl Work {
    /// Nothing was sent on or offered.
    pub fn begun(alloc: Global, decision: Decision, facts: Facts) -> Work
        ensures { spec.work_state result ≡ spec.first_work decision facts }
    {
        Work {
            decision,
            facts,
            link: LinkNote::NotUsed,
            notes: Vec::new(alloc),
            wished: false,
        }
    }

    /// Offers the event of a stage, if one is owed there, by what is known so far. Where memory ran out, nothing was offered.
    pub fn offer<A: Lane, B: Lane>(
        &mut self,
        alloc: Global,
        settings: &Settings,
        stage: Stage,
        lanes: &mut Lanes<A, B>,
    ) -> Result<(), NoMemory>
        requires stage { stage ≢ Stage.Panic }
        requires offer { CanOffer settings.now (lanes_state A.Lane B.Lane lanes.old) 1 }
        ensures ok { OnOk result (StageOffered settings.now stage (lanes_state A.Lane B.Lane lanes.old) (spec.work_state self.old)
            (lanes_state A.Lane B.Lane lanes.new) (spec.work_state self.new)) }
        ensures err { OnErr result ((lanes_state A.Lane B.Lane lanes.new ≡ lanes_state A.Lane B.Lane lanes.old)
            × (spec.work_state self.new ≡ spec.work_state self.old)) }
    {
        offer_stage(
            alloc,
            settings,
            self.decision,
            &self.facts,
            stage,
            lanes,
            &mut self.notes,
        )
    }

    /// How the link of a request that was handled so is noted, the status of its reply then, and what the connection wished.
    pub fn set_link(&mut self, handling: &Handling, note: LinkNote, wished: bool)
        ensures { spec.work_state self.new ≡ spec.linked handling.now note wished (spec.work_state self.old) }
    {
        self.link = note;
        self.wished = wished;
        self.facts.status = status_of(handling, note);
    }

    /// Whether the connection ends after its reply: it asks so, or the connection wished it.
    pub fn closes(&self, request: &Request) -> bool
        ensures { result ≡ closes request.now self.now.wished }
    {
        self.wished || asks(request)
    }

    /// What the head of its reply says.
    pub fn tag(&self, request: &Request) -> ReplyTag
        ensures { result ≡ spec.tag_in request.now (spec.work_state self.now) }
    {
        ReplyTag {
            id: self.facts.id,
            closing: self.closes(request),
        }
    }

    /// What is kept of its reply's body.
    pub fn set_reply(&mut self, reply: Kept)
        ensures { spec.work_state self.new ≡ spec.with_object reply (spec.work_state self.old) }
    {
        self.facts.reply = reply;
    }

    /// What is told of a request that was handled so.
    pub fn into_exchange(self, request: Request, routed: Routed) -> Exchange
        ensures is { result ≡ spec.exchange_of request routed (spec.work_state self) }
        ensures in_range { AreInRange self.facts }
    {
        facts_are_in_range(&self.facts);
        Exchange {
            request,
            row: routed.row,
            handling: routed.handling,
            decision: self.decision,
            facts: self.facts,
            link: self.link,
            offers: Offers::new(self.notes),
            wished: self.wished,
        }
    }
}

/// How a request is noted that was not handled.
pub fn not_routed() -> Routed
    ensures { result ≡ unrouted }
{
    Routed {
        row: None,
        handling: Handling::Refused(500),
    }
}

/// What a request wants after its first events: it is refused where a strict sink could not record its arrival.
pub fn errand_after(settings: &Settings, notes: &[OfferNote], errand: Errand) -> Errand
    ensures { result ≡ errand_after settings.now notes.now errand }
{
    if has_refused(settings, notes) {
        drop(errand);
        Errand::Refuse(500)
    } else {
        errand
    }
}
